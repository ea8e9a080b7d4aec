//! The script of the page: what it does in a browser (JavaScript).

/// The script of the page. It keeps the state before each 250th event, so a step back need not begin at the start.
pub const SCRIPT: &str = r##"
"use strict";
const run = JSON.parse(document.getElementById("run").textContent);
const events = run.events, workers = run.workers;
const hues = ["#4e79a7","#f28e2b","#59a14f","#e15759","#76b7b2","#d9b62f","#b07aa1","#9c755f",
              "#ff8fa3","#1f9e89","#7b5ea7","#c44e9c","#8cb43c","#3d8fd1","#d1703c","#6b8e9c"];
const byId = (id) => document.getElementById(id);
const element = (tag, words, className) => {
  const made = document.createElement(tag);
  if (words !== undefined) made.textContent = words;
  if (className) made.className = className;
  return made;
};

// Each task has its own hue, by the order in which tasks begin.
const taskNumbers = new Map([["root", 0]]);
for (const e of events) if (e.then === "begins" && !taskNumbers.has(e.to)) taskNumbers.set(e.to, taskNumbers.size);
const hueOf = (task) => hues[(taskNumbers.get(task) ?? 0) % hues.length];

// ---- The state between two events. ----

// A frame: its task, the registers that have values, and the line of its last instruction. A task: how it stands, who runs it, and its top.
const firstState = () => ({
  frames: new Map([["root", { task: "root", registers: new Map(Object.entries(run.start.sets || {})), line: null }]]),
  tasks: new Map([["root", { status: "running", worker: 0, top: "root" }]]),
  hands: Array.from({ length: workers }, (_, w) => (w === 0 ? "root" : null)),
  cells: new Map(), executed: Array(workers).fill(0), steals: Array(workers).fill(0), ended: false, fresh: new Set(),
});

const copyState = (s) => ({
  frames: new Map([...s.frames].map(([path, f]) => [path, { ...f, registers: new Map(f.registers) }])),
  tasks: new Map([...s.tasks].map(([path, t]) => [path, { ...t }])),
  hands: [...s.hands], cells: new Map(s.cells), executed: [...s.executed], steals: [...s.steals], ended: s.ended, fresh: new Set(),
});

const setRegisters = (s, path, sets) => {
  const frame = s.frames.get(path);
  if (!frame || !sets) return;
  for (const [name, value] of Object.entries(sets)) { frame.registers.set(name, value); s.fresh.add(path + " " + name); }
};

// Cells stand in the order in which they were last set.
const setCell = (s, object, index, value) => {
  const name = object + ":" + index;
  s.cells.delete(name);
  s.cells.set(name, value);
  s.fresh.add(name);
};

const doSteal = (s, e) => {
  s.hands[e.worker] = e.task;
  Object.assign(s.tasks.get(e.task), { status: "running", worker: e.worker });
  s.steals[e.worker]++;
};

// What a step comes to, beside registers and cells.
const turns = {
  "begins": (s, e) => {
    const parent = s.frames.get(e.frame);
    s.frames.set(e.to, { task: e.to, registers: new Map(parent.registers), line: null });
    Object.assign(s.tasks.get(e.task), { status: "ready", worker: null });
    s.tasks.set(e.to, { status: "running", worker: e.worker, top: e.to });
    s.hands[e.worker] = e.to;
  },
  "takes on": (s, e) => {
    s.frames.delete(e.frame); s.tasks.delete(e.task);
    Object.assign(s.tasks.get(e.to), { status: "running", worker: e.worker });
    s.hands[e.worker] = e.to;
  },
  "calls": (s, e) => { s.frames.set(e.to, { task: e.task, registers: new Map(), line: null }); s.tasks.get(e.task).top = e.to; },
  "returns": (s, e) => { s.frames.delete(e.frame); s.tasks.get(e.task).top = e.to; },
  "waits": (s, e) => { Object.assign(s.tasks.get(e.task), { status: "stalled", worker: null }); s.hands[e.worker] = null; },
  "ends": (s, e) => { s.frames.delete(e.frame); s.tasks.delete(e.task); s.hands[e.worker] = null; },
  "ends the run": (s, e) => { s.frames.clear(); s.tasks.clear(); s.hands[e.worker] = null; s.ended = true; },
};

const doEvent = (s, e) => {
  s.fresh = new Set();
  if (e.then === "not enabled") return;
  if (e.do === "steal") return doSteal(s, e);
  s.executed[e.worker]++;
  const frame = s.frames.get(e.frame);
  if (frame) frame.line = e.line;
  if (e.then) turns[e.then](s, e);
  setRegisters(s, e.frame, e.sets);
  if (e.cell) setCell(s, ...e.cell);
  if (e.zeros) for (let i = 0; i < e.zeros[2]; i++) setCell(s, e.zeros[0], e.zeros[1] + i, 0);
  if (e.gives) setRegisters(s, e.then === "takes on" ? s.tasks.get(e.to).top : e.to, e.gives);
};

// The states before event 0, 250, 500 and so on.
const kept = [firstState()];
const stateAt = (position) => {
  const from = Math.min(Math.floor(position / 250), kept.length - 1);
  const state = copyState(kept[from]);
  for (let i = from * 250; i < position; i++) {
    doEvent(state, events[i]);
    if ((i + 1) % 250 === 0 && (i + 1) / 250 === kept.length) kept.push(copyState(state));
  }
  return state;
};

// The line of a frame's next instruction, as the next event of that frame tells it; a stalled task stays at its sync.
const linesAhead = (() => {
  const ahead = new Map();
  events.forEach((e, i) => {
    if (e.do !== "step" || e.then === "not enabled") return;
    if (!ahead.has(e.frame)) ahead.set(e.frame, []);
    ahead.get(e.frame).push([i, e.line]);
  });
  return ahead;
})();
const nextLine = (path, position) => {
  const steps = linesAhead.get(path) || [];
  let low = 0, high = steps.length;
  while (low < high) { const middle = (low + high) >> 1; if (steps[middle][0] < position) low = middle + 1; else high = middle; }
  return low < steps.length ? steps[low][1] : null;
};
const lineOf = (state, task, position) => {
  const known = state.tasks.get(task);
  if (!known) return null;
  if (known.status === "stalled") return state.frames.get(known.top).line;
  return nextLine(known.top, position);
};

// ---- The time line: rounds across, so that what could be done at once stands side by side. ----

const rounds = events.reduce((most, e) => Math.max(most, e.round), 1);
const left = 76, rowHeight = 30, unit = Math.min(26, Math.max(1100 / rounds, 3900 / Math.max(rounds, 3900)));
const xOf = (round) => left + round * unit;

// Steps of one worker for one task in rounds that follow each other are one bar. A steal knows the worker that ran the task last.
const bars = (() => {
  const all = [], last = Array(workers).fill(null), runners = new Map([["root", 0]]);
  events.forEach((e, i) => {
    if (e.worker >= workers || e.then === "not enabled") return;
    const bar = last[e.worker], victim = runners.get(e.task);
    runners.set(e.task, e.worker);
    if (e.do === "step" && bar && bar.task === e.task && bar.to === e.round - 1) { bar.to = e.round; bar.last = i; return; }
    const made = { worker: e.worker, task: e.task, from: e.round - 1, to: e.round, first: i, last: i, steal: e.do === "steal", victim };
    all.push(made);
    last[e.worker] = made.steal ? null : made;
  });
  return all;
})();

// The longest chain: from an event of the last round back to one of the first, each time to the one that it had to wait for. That is its worker's
// last event, or else what made it possible: for a steal the detach that left the task ready, for others the end of a child, or a sync.
const isCause = (e, c) => e.do === "steal" ? c.then === "begins" && c.task === e.task : ["ends", "takes on", "waits"].includes(c.then);
const chain = (() => {
  const all = [];
  let i = events.findIndex((e) => e.round === rounds && e.then !== "not enabled");
  while (i >= 0) {
    all.push(i);
    const e = events[i];
    let other = -1, own = -1;
    for (let j = i - 1; j >= 0 && own < 0; j--) {
      const c = events[j];
      if (c.round !== e.round - 1 || c.then === "not enabled") continue;
      if (c.worker === e.worker) own = j; else if (other < 0 && isCause(e, c)) other = j;
    }
    i = own >= 0 ? own : other;
  }
  return all.reverse();
})();

const svgElement = (tag, attributes, title) => {
  const made = document.createElementNS("http://www.w3.org/2000/svg", tag);
  for (const [name, value] of Object.entries(attributes)) made.setAttribute(name, value);
  if (title) { const t = document.createElementNS("http://www.w3.org/2000/svg", "title"); t.textContent = title; made.append(t); }
  return made;
};

const drawBar = (svg, bar) => {
  const y = 22 + rowHeight * bar.worker, x = xOf(bar.from), width = Math.max((bar.to - bar.from) * unit, 0.5);
  const said = `${bar.task}, events ${bar.first + 1} to ${bar.last + 1}, rounds ${bar.from + 1} to ${bar.to}`;
  if (bar.steal) return drawSteal(svg, bar);
  const made = svgElement("rect", { x, y, width, height: 20, rx: 2, fill: hueOf(bar.task), stroke: "var(--back)", "stroke-width": 0.6 }, said);
  made.addEventListener("click", () => go(bar.first + 1));
  svg.append(made);
  if (bar.task.length * 6.5 + 6 < width) {
    const label = svgElement("text", { x: x + 4, y: y + 14, style: "fill:#fff;pointer-events:none" });
    label.textContent = bar.task;
    svg.append(label);
  }
};

// A steal: an arrow from the row of the worker that ran the task last to the thief's.
const drawSteal = (svg, bar) => {
  const x = xOf(bar.from) + unit / 2, from = 32 + rowHeight * bar.victim, down = bar.victim < bar.worker;
  const to = 32 + rowHeight * bar.worker + (down ? -12 : 12), tip = down ? -7 : 7;
  svg.append(svgElement("circle", { cx: x, cy: from, r: 2.5, fill: "var(--ink)" }));
  svg.append(svgElement("path", { d: `M${x},${from} V${to}`, stroke: "var(--ink)", "stroke-width": 1.4 }));
  svg.append(svgElement("path", { d: `M${x},${to} l-4,${tip} h8 z`, fill: "var(--ink)" }, `worker ${bar.worker} steals ${bar.task}`));
};

// The longest chain, as a line below the bars.
const drawChain = (svg) => {
  const yOf = (e) => 45 + rowHeight * e.worker;
  let way = "";
  for (const i of chain) {
    const e = events[i];
    way += `${way ? "L" : "M"}${xOf(e.round - 1)},${yOf(e)} L${xOf(e.round)},${yOf(e)} `;
  }
  svg.append(svgElement("path", { d: way, stroke: "var(--chain)", "stroke-width": 2, fill: "none", "stroke-opacity": 0.8 }, "the longest chain of events"));
};

const hand = svgElement("line", { y1: 0, y2: 26 + rowHeight * workers, stroke: "var(--chain)", "stroke-width": 2 });
const drawTime = () => {
  const width = xOf(rounds) + 16, height = 30 + rowHeight * workers;
  const svg = svgElement("svg", { width, height, viewBox: `0 0 ${width} ${height}`, role: "img", "aria-label": "the time line" });
  for (let w = 0; w < workers; w++) {
    const y = 32 + rowHeight * w;
    svg.append(svgElement("line", { x1: left, x2: xOf(rounds), y1: y, y2: y, stroke: "var(--line)" }));
    const name = svgElement("text", { x: 4, y: y + 4 });
    name.textContent = "worker " + w;
    svg.append(name);
  }
  let stride = 1;
  for (let k = 0; stride * unit < 46; k++) stride = k % 3 === 1 ? stride * 2.5 : stride * 2;
  for (let r = stride; r <= rounds; r += stride) {
    const number = svgElement("text", { x: xOf(r), y: 14, "text-anchor": "middle", style: "fill:var(--soft)" });
    number.textContent = r;
    svg.append(number);
  }
  for (const bar of bars) if (!bar.steal) drawBar(svg, bar);
  for (const bar of bars) if (bar.steal) drawBar(svg, bar);
  drawChain(svg);
  svg.append(hand);
  byId("time").replaceChildren(svg);
};

// ---- What is shown of a position. ----

let position = 0, playing = null;

const drawSource = (state) => {
  const here = new Map();
  state.hands.forEach((task, w) => {
    const line = task && lineOf(state, task, position);
    if (line) here.set(line, [...(here.get(line) || []), [w, task]]);
  });
  run.source.forEach((_, i) => {
    const row = rows[i];
    row.classList.toggle("here", here.has(i + 1));
    row.querySelectorAll(".tag").forEach((tag) => tag.remove());
    for (const [w, task] of here.get(i + 1) || []) {
      const tag = element("span", `worker ${w}: ${task}`, "tag");
      tag.style.background = hueOf(task);
      row.append(tag);
    }
  });
  const first = [...here.keys()].sort((a, b) => a - b)[0];
  if (first) { const row = rows[first - 1], box = byId("source");
    if (row.offsetTop < box.scrollTop || row.offsetTop > box.scrollTop + box.clientHeight - 40) box.scrollTop = row.offsetTop - 80; }
};

const statusWords = (task) => task.status === "running" ? `running on worker ${task.worker}` : task.status;

const drawTree = (state) => {
  const children = new Map();
  for (const path of state.frames.keys()) {
    const parent = path.includes(".") ? path.slice(0, path.lastIndexOf(".")) : null;
    children.set(parent, [...(children.get(parent) || []), path]);
  }
  const list = (parent) => {
    const made = element("ul");
    for (const path of children.get(parent) || []) {
      const item = element("li"), frame = state.frames.get(path);
      const tag = element("span", path, "tag");
      tag.style.background = hueOf(frame.task); tag.style.marginLeft = 0;
      item.append(tag);
      if (state.tasks.has(path)) item.append(" " + statusWords(state.tasks.get(path)));
      else item.append(" called");
      item.append(list(path));
      made.append(item);
    }
    return made;
  };
  byId("frames").replaceChildren(state.ended ? element("span", "none: the run has ended", "gone") : list(null));
};

const row = (cells, isNew) => {
  const made = element("tr");
  cells.forEach((words, i) => made.append(element("td", String(words), isNew && i === cells.length - 1 ? "new" : "")));
  return made;
};

const drawRegisters = (state) => {
  const table = element("table");
  for (const [path, frame] of state.frames)
    for (const [name, value] of frame.registers) table.append(row([path, name, value], state.fresh.has(path + " " + name)));
  byId("registers").replaceChildren(table);
};

// The cells that were set last come first; no more are drawn than can be read.
const drawCells = (state) => {
  const table = element("table"), all = [...state.cells].reverse();
  for (const [name, value] of all.slice(0, 300)) table.append(row([name, value], state.fresh.has(name)));
  const rest = element("span", all.length === 0 ? "none yet" : all.length > 300 ? `and ${all.length - 300} more` : "", "gone");
  byId("cells").replaceChildren(table, rest);
};

const drawWorkers = (state) => {
  const table = element("table");
  const counted = (number, word) => `${number} ${word}${number === 1 ? "" : "s"}`;
  state.hands.forEach((task, w) =>
    table.append(row([`worker ${w}`, task || "idle", counted(state.executed[w], "instruction"), counted(state.steals[w], "steal")])));
  byId("workers").replaceChildren(table);
};

const eventWords = (e) => {
  const at = e.line ? ` line ${e.line}: ${(run.source[e.line - 1] || "").split(";")[0].trim()}` : "";
  const then = e.then ? ` → ${e.then}${e.to ? " " + e.to : ""}${e.why ? ": " + e.why : ""}` : "";
  return `${e.n} ${e.do} ${e.worker} ${e.task || ""}${at}${then} (round ${e.round})`;
};

const go = (to) => {
  position = Math.max(0, Math.min(events.length, to));
  const state = stateAt(position), e = events[position - 1];
  byId("slider").value = position;
  byId("at").textContent = `at ${position} of ${events.length}`;
  byId("event").textContent = e ? eventWords(e) : "before the first event";
  const x = xOf(e ? e.round : 0);
  hand.setAttribute("x1", x); hand.setAttribute("x2", x);
  const time = byId("time");
  if (x < time.scrollLeft || x > time.scrollLeft + time.clientWidth - 20) time.scrollLeft = x - time.clientWidth / 2;
  drawSource(state); drawTree(state); drawRegisters(state); drawCells(state); drawWorkers(state);
};

const stop = () => { clearInterval(playing); playing = null; byId("play").textContent = "play"; };
const play = () => {
  if (playing) return stop();
  if (position === events.length) go(0);
  byId("play").textContent = "pause";
  playing = setInterval(() => (position < events.length ? go(position + 1) : stop()), 250);
};

// What a test of the page asks: the position, and how each task stands, as `debug` answers.
window.tasksAt = (at) => { go(at); const state = stateAt(at);
  return Object.fromEntries([...state.tasks].map(([path, t]) => [path,
    (t.status === "running" ? `running ${t.worker}` : t.status) + " line " + lineOf(state, path, at)])); };
window.cellsAt = (at) => Object.fromEntries(stateAt(at).cells);
window.registersAt = (at) => Object.fromEntries([...stateAt(at).frames].map(([path, f]) => [path, Object.fromEntries(f.registers)]));

const rows = run.source.map((words, i) => {
  const made = element("span", undefined, words.trim().startsWith(";") ? "row note" : "row");
  made.append(element("span", String(i + 1), "n"), words || " ");
  byId("source").append(made);
  return made;
});
byId("note").textContent = run.note;
byId("slider").max = events.length;
byId("slider").addEventListener("input", (e) => { stop(); go(Number(e.target.value)); });
byId("first").addEventListener("click", () => { stop(); go(0); });
byId("back").addEventListener("click", () => { stop(); go(position - 1); });
byId("step").addEventListener("click", () => { stop(); go(position + 1); });
byId("last").addEventListener("click", () => { stop(); go(events.length); });
byId("play").addEventListener("click", play);
addEventListener("keydown", (e) => {
  const keys = { ArrowRight: () => go(position + 1), ArrowLeft: () => go(position - 1), Home: () => go(0), End: () => go(events.length), " ": play };
  if (!keys[e.key] || e.target.tagName === "INPUT" || (e.key === " " && e.target.tagName === "BUTTON")) return;
  e.preventDefault();
  if (e.key !== " ") stop();
  keys[e.key]();
});
drawTime();
go(Number(location.hash.slice(1)) || 0);
"##;
