//! Completions for bash, zsh and fish: scripts that are written from the table of the program's commands.

use crate::request::{Shell, Verb};
use crate::table::{Given, Part, VERBS, row_of};
use lists::TextBuffer;
use std::alloc::{AllocError, Global};

fn push_words(out: &mut TextBuffer) {
    for verb in VERBS {
        out.push_str(verb.word());
        out.push(' ');
    }
}

/// The case of a command, with its options.
fn push_bash_case(out: &mut TextBuffer, verb: Verb) {
    let word = verb.word();
    write!(out, "            {word}) words=\"");
    for part in row_of(verb).parts {
        if !matches!(part.given, Given::Word) {
            let name = part.name;
            write!(out, "--{name} ");
        }
    }
    out.push_str("--help\" ;;\n");
}

fn push_bash(out: &mut TextBuffer) {
    out.push_str(
        "# Completes the words of tapirvm in bash: source <(tapirvm completions bash)
_tapirvm() {
    local word=${COMP_WORDS[COMP_CWORD]} words=
    COMPREPLY=()
    if [ \"$COMP_CWORD\" = 1 ]; then
        words=\"",
    );
    push_words(out);
    out.push_str(
        "help --help --version\"
    else
        case ${COMP_WORDS[1]} in
",
    );
    for verb in VERBS {
        push_bash_case(out, verb);
    }
    out.push_str(
        "        esac
    fi
    if [ \"${COMP_WORDS[COMP_CWORD - 1]}\" = --effort ]; then
        COMPREPLY=($(compgen -W unbounded -- \"$word\"))
        return
    fi
    case $COMP_CWORD:${COMP_WORDS[1]}:$word in
        1:* | *:-*) COMPREPLY=($(compgen -W \"$words\" -- \"$word\")) ;;
        2:completions:*) COMPREPLY=($(compgen -W \"bash zsh fish\" -- \"$word\")) ;;
        *) COMPREPLY=($(compgen -f -- \"$word\")) ;;
    esac
}
complete -o filenames -F _tapirvm tapirvm
",
    );
}

fn push_zsh_words(out: &mut TextBuffer) {
    for verb in VERBS {
        let word = verb.word();
        let about = row_of(verb).about;
        writeln!(out, "        '{word}:{about}'");
    }
}

/// What zsh completes behind a part.
fn zsh_action(part: &Part) -> &'static str {
    match part.value {
        "OUT" | "FILE" | "SCHEDULE" => "_files",
        "N|unbounded" => "(unbounded)",
        "SHELL" => "(bash zsh fish)",
        _ => " ",
    }
}

/// An option with its help.
fn push_zsh_option(out: &mut TextBuffer, star: &str, part: &Part, equals: &str) {
    let Part { name, help, .. } = part;
    write!(out, "{star}--{name}{equals}[{help}]");
}

/// What stands behind a part.
fn push_zsh_values(out: &mut TextBuffer, part: &Part) {
    match part.given {
        Given::Flag => {}
        Given::Row => out.push_str(":@a: :I: :N: "),
        _ => {
            let value = part.value;
            let action = zsh_action(part);
            write!(out, ":{value}:{action}");
        }
    }
}

fn push_zsh_part(out: &mut TextBuffer, part: &Part) {
    out.push_str(" '");
    match part.given {
        Given::Word => {}
        Given::Flag => push_zsh_option(out, "", part, ""),
        Given::Row => push_zsh_option(out, "*", part, ""),
        Given::Repeated => push_zsh_option(out, "*", part, "="),
        _ => push_zsh_option(out, "", part, "="),
    }
    push_zsh_values(out, part);
    out.push_str("'");
}

fn push_zsh_case(out: &mut TextBuffer, verb: Verb) {
    let word = verb.word();
    write!(out, "        {word}) _arguments '--help[prints help]'");
    for part in row_of(verb).parts {
        push_zsh_part(out, part);
    }
    out.push_str(" ;;\n");
}

fn push_zsh(out: &mut TextBuffer) {
    out.push_str(
        "#compdef tapirvm
# Completes the words of tapirvm in zsh: source <(tapirvm completions zsh)
_tapirvm() {
    local -a commands
    commands=(
",
    );
    push_zsh_words(out);
    out.push_str(
        "    )
    if (( CURRENT == 2 )); then
        _describe command commands
        return
    fi
    local command=$words[2]
    shift words
    (( CURRENT-- ))
    case $command in
",
    );
    for verb in VERBS {
        push_zsh_case(out, verb);
    }
    out.push_str(
        "    esac
}
compdef _tapirvm tapirvm
",
    );
}

/// A command, with its options.
fn push_fish_command(out: &mut TextBuffer, verb: Verb) {
    let word = verb.word();
    let row = row_of(verb);
    let about = row.about;
    writeln!(
        out,
        "complete -c tapirvm -f -n __fish_use_subcommand -a {word} -d '{about}'"
    );
    for part in row.parts {
        push_fish_part(out, word, part);
    }
}

fn push_fish_part(out: &mut TextBuffer, word: &str, part: &Part) {
    let Part { name, help, .. } = part;
    let value = match part.given {
        Given::Word => return,
        Given::Flag => "",
        _ => " -r",
    };
    writeln!(
        out,
        "complete -c tapirvm -n '__fish_seen_subcommand_from {word}' -l {name}{value} -d '{help}'"
    );
}

fn push_fish(out: &mut TextBuffer) {
    out.push_str("# Completes the words of tapirvm in fish: tapirvm completions fish | source\n");
    for verb in VERBS {
        push_fish_command(out, verb);
    }
    out.push_str(
        "complete -c tapirvm -n '__fish_seen_subcommand_from completions' -f -a 'bash zsh fish'
complete -c tapirvm -l effort -a unbounded\n",
    );
}

/// A script that completes the program's words in a shell.
///
/// # Errors
///
/// Memory was refused.
pub fn completions(alloc: Global, shell: Shell) -> Result<String, AllocError> {
    let mut out = TextBuffer::new(alloc);
    match shell {
        Shell::Bash => push_bash(&mut out),
        Shell::Zsh => push_zsh(&mut out),
        Shell::Fish => push_fish(&mut out),
    }
    out.finish()
}
