//! Words of LLVM that the language leaves out.

use crate::table::looked_up;
use lists::TextBuffer;

/// A word, and what to write in its place.
const LEFT_OUT: &str = "\
align | leave it out; cells are aligned
nuw | leave it out; `nsw` alone is judged
exact | leave it out
nneg | leave it out
disjoint | leave it out
samesign | leave it out
select | a `br` and a phi
undef | a number
poison | a number
null | no pointer is compared or stored
true | an `icmp`, as `icmp eq i64 0, 0`
false | an `icmp`, as `icmp ne i64 0, 0`
float | numbers are i64 and i32
double | numbers are i64 and i32
half | numbers are i64 and i32
bfloat | numbers are i64 and i32
fp128 | numbers are i64 and i32
x86_fp80 | numbers are i64 and i32
i8 | numbers are i64 and i32
i16 | numbers are i64 and i32
i128 | numbers are i64 and i32
u8 | numbers are i64 and i32; the operation says how they are read, as `udiv`
u16 | numbers are i64 and i32; the operation says how they are read, as `udiv`
u32 | i32; the operation says how it is read, as `udiv`
u64 | i64; the operation says how it is read, as `udiv`
fadd | numbers are whole
fsub | numbers are whole
fmul | numbers are whole
fdiv | numbers are whole
frem | numbers are whole
fneg | numbers are whole
fcmp | numbers are whole
fptosi | numbers are whole
sitofp | numbers are whole
fptoui | numbers are whole
uitofp | numbers are whole
fpext | numbers are whole
fptrunc | numbers are whole
fast | numbers are whole
xchg | of `atomicrmw` only `add`
nand | of `atomicrmw` only `add`
max | of `atomicrmw` only `add`
min | of `atomicrmw` only `add`
umax | of `atomicrmw` only `add`
umin | of `atomicrmw` only `add`
monotonic | `seq_cst`
acquire | `seq_cst`
release | `seq_cst`
acq_rel | `seq_cst`
cmpxchg | of atomic operations only `atomicrmw add`
fence | a `sync` orders what children did
volatile | leave it out
atomic | a load and a store without it
inttoptr | pointers are whole objects
ptrtoint | pointers are whole objects
bitcast | pointers are whole objects
addrspacecast | pointers are whole objects
freeze | nothing is undefined in what is accepted
unreachable | a `ret`
invoke | `call`
tail | leave it out
musttail | leave it out
notail | leave it out
callbr | `call`
indirectbr | `switch`
resume | there are no exceptions
landingpad | there are no exceptions
va_arg | write each argument as a parameter
extractvalue | cells of an array
insertvalue | cells of an array
extractelement | cells of an array
insertelement | cells of an array
shufflevector | cells of an array
declare | write the function itself; there are no outer ones
attributes | leave the line out
target | leave the line out
source_filename | leave the line out
constant | `global`
private | leave it out
internal | leave it out
external | leave it out
unnamed_addr | leave it out
local_unnamed_addr | leave it out
dso_local | leave it out
common | leave it out
weak | leave it out
linkonce_odr | leave it out
hidden | leave it out
comdat | leave it out
section | leave it out
fastcc | leave it out
nounwind | leave it out
readonly | say it by `;! reads`
nocapture | leave it out
noundef | leave it out
nonnull | leave it out
returned | leave it out
writeonly | say it by `;! writes`
writable | leave it out
captures | leave it out
nofree | leave it out
nosync | leave it out
norecurse | leave it out
mustprogress | leave it out
willreturn | leave it out
memory | say it by `;! reads` and `;! writes`
uwtable | leave it out
signext | leave it out
zeroext | leave it out
metadata | leave it out
!tbaa | leave it out
!dbg | leave it out
!llvm.loop | leave it out
#0 | leave it out
#1 | leave it out
#2 | leave it out
syncscope | leave it out
tapir | `detach`, `reattach` and `sync` are its words
";

/// Says of a word of LLVM that the language leaves it out.
pub(crate) fn push_left_out(word: &str, out: &mut TextBuffer) {
    if let Some(instead) = looked_up(LEFT_OUT, word) {
        writeln!(
            out,
            "  `{word}` is a word of LLVM that the language leaves out: {instead}"
        );
    }
}
