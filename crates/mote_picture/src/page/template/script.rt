//! The page's script: `crates/mote_picture/web/page.js`, as `scripts/page-template` writes it here.

/// The whole script.
pub(crate) const SCRIPT: &str = r#""use strict";
// Lays out a run. The data hold the transcript's text, the words for each line, and what holds at the lines; numbers of lines are those in
// the whole transcript, from 0 on. Nothing here finds out anew what holds: it asks which of those facts hold at a line.

const ROW = 18;
const MOST_PIXELS = 30000000;
const byId = (id) => document.getElementById(id);
const colourOf = (pid) => `var(--p${pid})`;

// ---- The run ----

// Numbers, so many to an item, as one list for each field; null stands for never.
function table(numbers, ...fields) {
  const count = numbers.length / fields.length;
  const made = { count };
  fields.forEach((field, place) => {
    const column = new Float64Array(count);
    for (let item = 0; item < count; item++) column[item] = numbers[item * fields.length + place] ?? Infinity;
    made[field] = column;
  });
  return made;
}

const spans = (numbers) => table(numbers, "pid", "name", "at", "taken", "size", "first", "end");

// Lines of text without their ends.
function linesIn(text) {
  const lines = text.split("\n");
  if (lines.at(-1) === "") lines.pop();
  return lines;
}

// Which blocks each list has, from line to line.
function chainsIn(numbers) {
  const chains = [];
  for (let at = 0; at < numbers.length; at += 3 + numbers[at + 2]) {
    chains.push({ line: numbers[at], list: numbers[at + 1], blocks: numbers.slice(at + 3, at + 3 + numbers[at + 2]) });
  }
  return chains;
}

// Where each line lies on the axis of the clock, from where to where: the lines at one clock share its tick.
function placesOf(clocks) {
  const places = new Float64Array(clocks.length);
  const ends = new Float64Array(clocks.length);
  for (let first = 0, end; first < clocks.length; first = end) {
    for (end = first; end < clocks.length && clocks[end] === clocks[first]; end++);
    for (let line = first; line < end; line++) {
      places[line] = clocks[first] + (line - first) / (end - first);
      ends[line] = clocks[first] + (line - first + 1) / (end - first);
    }
  }
  return { places, ends };
}

function readRun(data) {
  const [total, first, start, managed, heap, header, exceeds, differs] = data.run;
  const lines = linesIn(data.text);
  return {
    title: data.title, names: data.names, quiet: data.quiet, total, first, start, exceeds, differs,
    sizes: { managed, heap, header }, lines, words: linesIn(data.words), clocks: data.clocks, answers: data.answers,
    ...placesOf(data.clocks),
    activations: table(data.activations, "pid", "first", "last"),
    lives: table(data.lives, "pid", "first", "end"),
    gifts: table(data.gifts, "from", "to", "first"),
    curves: table(data.curves, "from", "first", "to", "last"),
    armings: table(data.armings, "pid", "timer", "first", "end", "due", "told"),
    waits: table(data.waits, "first", "end"),
    chains: chainsIn(data.chains),
    managed: spans(data.managed), heap: spans(data.heap), used: spans(data.used), linked: spans(data.linked),
  };
}

const TURN = /^([4-9]|1\d) (event|synch|poll|callback|answer) .* -> ./;
const REFUSED = /^\d+ answer refused (\d+) |^note lost (\d+)$/;

// The number of the refusal that a line tells, or null.
function refusalIn(line) {
  const found = line ? REFUSED.exec(line) : null;
  return found ? Number(found[1] ?? found[2]) : null;
}

// What a line is: its kind, its process and where that received something from, and the number of the refusal of its call.
function readLine(run, place) {
  const line = run.lines[place];
  const turn = TURN.exec(line);
  if (!turn) {
    const kind = line[0] === ">" ? "input" : line.startsWith("note") ? "note" : "end";
    return { kind, pid: null, origin: null, refusal: refusalIn(line) };
  }
  const answer = run.answers[place];
  const refusal = answer === null ? null : refusalIn(run.lines[answer - run.first]);
  return { kind: "turn", pid: Number(turn[1]), origin: turn[2], refusal };
}

// ---- What holds at a line ----

// The items that are there at a line.
function thereAt(items, line, ends = "end", plus = 0) {
  const found = [];
  for (let item = 0; item < items.count; item++) {
    if (items.first[item] <= line && line < items[ends][item] + plus) found.push(item);
  }
  return found;
}

const blocksAt = ({ pid, name, at, taken, size, ...items }, line) => thereAt(items, line)
  .map((item) => ({ pid: pid[item], name: name[item], at: at[item], taken: taken[item], size: size[item] }))
  .sort((a, b) => a.at - b.at);

const timersAt = (armings, line) => thereAt(armings, line).map((item) => ({
  pid: armings.pid[item], isCallback: armings.timer[item] >= 8, number: armings.timer[item] % 8, due: armings.due[item],
})).sort((a, b) => a.due - b.due || a.pid - b.pid);

// The blocks of the lists that have any.
function listsAt(chains, line) {
  const lists = new Map();
  for (const chain of chains) {
    if (chain.line > line) break;
    lists.set(chain.list, chain.blocks);
  }
  return [...lists].filter(([, blocks]) => blocks.length > 0).sort((a, b) => a[0] - b[0]).map(([list, blocks]) => ({ list, blocks }));
}

const eventsAt = (waits, line) => thereAt(waits, line).map((item) => waits.first[item]).sort((a, b) => a - b);

// The processes in an activation, the innermost last.
const activeAt = ({ pid, ...items }, line) => thereAt(items, line, "last", 1)
  .sort((a, b) => items.first[a] - items.first[b]).map((item) => pid[item]);

// All of it, for a line of that number.
function stateAt(run, line) {
  return {
    active: activeAt(run.activations, line),
    managed: blocksAt(run.managed, line), heap: blocksAt(run.heap, line),
    used: blocksAt(run.used, line), linked: blocksAt(run.linked, line), lists: listsAt(run.chains, line),
    timers: timersAt(run.armings, line), events: eventsAt(run.waits, line),
  };
}

// ---- What is shown ----

const run = readRun(JSON.parse(byId("data").textContent));
const told = run.lines.map((_, place) => readLine(run, place));
const pids = [...new Set([...run.names.map((_, place) => place + 4), ...told.map((line) => line.pid)])]
  .filter((pid) => pid !== null).sort((a, b) => a - b);
const hidden = new Set();
const whole = { from: run.places[0] ?? 0, to: run.ends.at(-1) ?? 1 };
let range = { ...whole };
let kept = [];
let chosen = 0;
const found = [];

// The first of the kept places that is not below a place.
function rowOf(place) {
  let low = 0;
  let high = kept.length;
  while (low < high) {
    const middle = (low + high) >> 1;
    if (kept[middle] < place) low = middle + 1;
    else high = middle;
  }
  return low;
}

// What words are looked for in: a line and what stands for it, made when it is asked for first.
function searched(place) {
  found[place] ??= `${run.lines[place]} ${run.words[place]}`.toLowerCase();
  return found[place];
}

// What the reader asks for, but for the part of the clock.
const wishes = () => ({
  words: byId("find").value.toLowerCase().split(/\s+/).filter(Boolean),
  inputs: byId("inputs").checked,
  refusals: byId("refused").checked,
});

// Whether the filters leave a line.
function isKept(place, { words, inputs, refusals }) {
  const line = told[place];
  if (run.places[place] < range.from || run.places[place] >= range.to) return false;
  if (line.pid === null ? !inputs : hidden.has(line.pid)) return false;
  if (refusals && line.refusal === null) return false;
  return words.every((word) => searched(place).includes(word));
}

function sift() {
  const wished = wishes();
  kept = [];
  for (let place = 0; place < run.lines.length; place++) if (isKept(place, wished)) kept.push(place);
  const most = Math.floor(MOST_PIXELS / ROW);
  const rest = kept.length > most ? `, of which the first ${most.toLocaleString("en")} fit on a page: take --from and --to` : "";
  kept.length = Math.min(kept.length, most);
  byId("space").style.height = `${kept.length * ROW}px`;
  byId("count").textContent = `${kept.length.toLocaleString("en")} of ${run.lines.length.toLocaleString("en")} lines${rest}`;
  rows.clear();
  draw();
  drawCursor();
}

// ---- Rows ----

// The rows that are made, by their places among the kept ones.
const rows = new Map();

function element(name, look, text, parent) {
  const made = document.createElement(name);
  if (look) made.className = look;
  if (text !== undefined) made.textContent = text;
  if (parent) parent.append(made);
  return made;
}

// The words of a line: what was received, the call, and the reply.
function fillWords(parent, place) {
  const line = told[place];
  const [first, call, answer] = (run.words[place] ?? run.lines[place]).split("\t");
  if (line.pid === null) {
    element("span", line.kind === "end" ? "ending" : line.refusal === null ? "" : "refused", first, parent);
    return;
  }
  element("b", "", line.pid, parent).style.color = colourOf(line.pid);
  element("span", "told", line.origin === "answer" ? `${first} ` : `${first} → `, parent);
  element("span", call === "wait" ? "wait" : call.startsWith("print ") ? "print" : "call", call, parent);
  if (answer) element("span", line.refusal === null ? "answer" : "refused", answer, parent);
}

function makeRow(row) {
  const place = kept[row];
  const before = row > 0 ? run.clocks[kept[row - 1]] : undefined;
  const made = element("div", `row ${told[place].kind}`);
  made.style.top = `${row * ROW}px`;
  made.dataset.place = place;
  made.setAttribute("role", "option");
  element("span", "number", run.first + place + 1, made);
  element("span", "clock", run.clocks[place] === before || run.quiet ? "" : run.clocks[place], made);
  element("span", "", "", made);
  const words = element("span", "words", undefined, made);
  fillWords(words, place);
  made.title = run.lines[place];
  return made;
}

// The first row that can be seen now and the one behind the last, and so many more on both sides.
function rowsThere(more) {
  const box = byId("rows");
  const first = Math.floor(box.scrollTop / ROW);
  const end = first + Math.ceil(box.clientHeight / ROW);
  return [Math.max(0, first - more), Math.min(kept.length, end + more)];
}

function draw() {
  const [first, end] = rowsThere(12);
  for (const [row, made] of rows) {
    if (row < first || row >= end) {
      made.remove();
      rows.delete(row);
    }
  }
  if (rows.size === 0) byId("space").replaceChildren(byId("lanes"));
  for (let row = first; row < end; row++) {
    if (!rows.has(row)) {
      rows.set(row, makeRow(row));
      byId("space").append(rows.get(row));
    }
    const isChosen = kept[row] === chosen;
    rows.get(row).classList.toggle("chosen", isChosen);
    rows.get(row).setAttribute("aria-selected", isChosen);
  }
  drawLanes(first, end);
}

// ---- Lanes ----

const pitch = () => (innerWidth < 760 && pids.length > 6 ? 12 : pids.length > 10 ? 18 : 26);
const laneOf = (pid) => (pids.indexOf(pid) + 0.5) * pitch() + 12;

// The middle of the row of a line, in the window that begins with a row.
const topOf = (line, first) => (rowOf(line - run.first) - first + 0.5) * ROW;

function shape(path, look, hint) {
  const made = document.createElementNS("http://www.w3.org/2000/svg", "path");
  made.setAttribute("d", path);
  made.setAttribute("fill", "none");
  for (const [name, value] of Object.entries(look)) made.setAttribute(name, value);
  if (hint) {
    made.dataset.hint = hint;
    const title = document.createElementNS("http://www.w3.org/2000/svg", "title");
    title.textContent = hint;
    made.append(title);
  }
  byId("lanes").append(made);
}

// The items that touch the rows from one to another.
function touching(items, first, end, ends) {
  const from = run.first + (kept[first] ?? 0);
  const to = run.first + (kept[end - 1] ?? -1);
  const found = [];
  for (let item = 0; item < items.count; item++) {
    if (items.first[item] <= to && items[ends][item] >= from) found.push(item);
  }
  return found;
}

function drawLives(first, end) {
  for (const item of touching(run.lives, first, end, "end")) {
    const pid = run.lives.pid[item];
    const isEnded = run.lives.end[item] !== Infinity;
    const bottom = isEnded ? topOf(run.lives.end[item], first) : (end - first) * ROW;
    const x = laneOf(pid);
    const top = Math.max(-ROW, topOf(run.lives.first[item], first));
    shape(`M${x},${top}V${bottom}${isEnded ? "m-6,0h12" : ""}`, { stroke: colourOf(pid), opacity: 0.6 });
  }
}

// A bar is pale where another process takes its turn.
function drawActivations(first, end) {
  for (const item of touching(run.activations, first, end, "last")) {
    const pid = run.activations.pid[item];
    const from = Math.max(first, rowOf(run.activations.first[item] - run.first));
    const to = Math.min(end, rowOf(run.activations.last[item] - run.first + 1));
    if (hidden.has(pid) || from >= to) continue;
    const x = laneOf(pid);
    const look = { stroke: colourOf(pid), "stroke-width": 9 };
    const path = `M${x},${(from - first) * ROW + 2}V${(to - first) * ROW - 2}`;
    shape(path, { ...look, opacity: 0.4 }, `an activation of process ${pid}`);
    let own = "";
    for (let row = from; row < to; row++) if (told[kept[row]].pid === pid) own += `M${x},${(row - first) * ROW + 2}v${ROW - 4}`;
    shape(own, look);
  }
}

function timerHint(item) {
  const { pid, timer, due, told: at } = run.armings;
  const kind = timer[item] >= 8 ? "callback timer" : "timer";
  const late = at[item] - due[item];
  const end = at[item] !== Infinity ? `, told at ${at[item]}${late > 0 ? `: ${late} late` : ""}` : "";
  return `${kind} ${timer[item] % 8} of process ${pid[item]}, due at clock ${due[item]}${end}`;
}

function drawTimers(first, end) {
  const { pid, timer, first: begins, end: ends, due, told: at } = run.armings;
  for (const item of touching(run.armings, first, end, "end")) {
    const isCallback = timer[item] >= 8;
    const x = laneOf(pid[item]) + (isCallback ? 1 : -1) * (7 + 2 * Math.min(timer[item] % 8, 3));
    const bottom = ends[item] === Infinity ? (end - first) * ROW : topOf(ends[item], first);
    const isTold = at[item] !== Infinity;
    const path = `M${x - 2},${topOf(begins[item], first)}h4m-2,0V${bottom}${isTold ? "m-3,-4l3,4l3,-4" : ""}`;
    const stroke = isTold && at[item] > due[item] ? "var(--bad)" : colourOf(pid[item]);
    shape(path, { stroke, "stroke-width": 1.5, ...(isCallback ? { "stroke-dasharray": "3 2" } : {}) }, timerHint(item));
  }
}

function drawGifts(first, end) {
  const { from, to, first: line } = run.gifts;
  for (const item of touching(run.gifts, first, end, "first")) {
    const y = topOf(line[item], first) - 4;
    const sign = from[item] < to[item] ? 1 : -1;
    const path = `M${laneOf(from[item])},${y}H${laneOf(to[item]) - sign * 5}m${-3 * sign},-3l${3 * sign},3l${-3 * sign},3`;
    shape(path, { stroke: "currentColor", opacity: 0.7 }, `given at once by process ${from[item]} to process ${to[item]}`);
  }
}

function drawCurves(first, end) {
  const { from, first: begins, to, last } = run.curves;
  for (const item of touching(run.curves, first, end, "last")) {
    const [left, right] = [laneOf(from[item]), laneOf(to[item])];
    const [top, bottom] = [topOf(begins[item], first), topOf(last[item], first) - 3];
    const middle = (left + right) / 2 + (left === right ? 14 : 0);
    shape(`M${left},${top}C${middle},${top} ${middle},${bottom} ${right},${bottom}`, { stroke: colourOf(from[item]), opacity: 0.7 },
      `posted by process ${from[item]}, told to process ${to[item]}`);
  }
}

function drawLanes(first, end) {
  const lanes = byId("lanes");
  lanes.replaceChildren();
  lanes.style.top = `${first * ROW}px`;
  lanes.setAttribute("width", pids.length * pitch() + 24);
  lanes.setAttribute("height", Math.max(0, end - first) * ROW);
  drawLives(first, end);
  drawTimers(first, end);
  drawActivations(first, end);
  drawGifts(first, end);
  drawCurves(first, end);
}

function drawHeads() {
  document.documentElement.style.setProperty("--lanes", `${pids.length * pitch() + 24}px`);
  const heads = byId("lane-heads");
  heads.replaceChildren();
  for (const pid of pids) {
    const head = element("b", "", pid, heads);
    head.style.left = `${laneOf(pid)}px`;
    head.style.color = colourOf(pid);
    head.title = run.names[pid - 4] ?? `process ${pid}`;
  }
}

// ---- The panel ----

const plural = (count, word) => `${count.toLocaleString("en")} ${word}${count === 1 ? "" : "s"}`;
const ownerOf = (block) => (block.pid === 3 ? "a frame that is held" : `process ${block.pid}`);

// The end of what a run takes of a region.
const extentOf = (all) => all.at.reduce((most, at, item) => Math.max(most, at + all.taken[item]), 64);

// The blocks of a region, each where it lies, its header paler.
function drawBlocks(panel, blocks, extent, word, header) {
  const region = element("div", "region", undefined, panel);
  for (const block of blocks) {
    const part = element("i", "", block.pid === 3 ? "" : block.name, region);
    part.style.cssText = `left:${(100 * block.at) / extent}%;width:${(100 * block.taken) / extent}%`;
    part.style.background = colourOf(block.pid);
    part.title = `${blockTold(block, word)}, from ${block.at} to ${block.at + block.taken}`;
    if (header) element("u", "", undefined, part).style.cssText = `left:0;width:${(100 * header) / block.taken}%`;
  }
}

const blockTold = (block, word) => `${block.pid === 3 ? "" : `${word} ${block.name} of `}${ownerOf(block)}: ${plural(block.size, "byte")}`;

// A region of memory up to the end of what the run takes of it.
function drawRegion(panel, head, blocks, size, all, word, header) {
  if (all.count === 0) return;
  const extent = extentOf(all);
  const taken = blocks.reduce((sum, block) => sum + block.taken, 0);
  element("h2", "", head, panel);
  drawBlocks(panel, blocks, extent, word, header);
  const counts = `${plural(blocks.length, "block")}, ${taken} bytes taken, ${size - taken} free`;
  element("div", taken > size ? "late" : "none", `0 to ${extent} of ${size}: ${counts}`, panel);
  const list = element("ul", "", undefined, panel);
  for (const block of blocks) element("li", "", blockTold(block, word), list);
}

function drawPools(panel, state) {
  if (run.used.count === 0) return;
  element("h2", "", "pools and lists", panel);
  const pools = [...new Set([...run.used.at].map((at) => Math.floor(at / 16)))].sort();
  for (const pool of pools) {
    element("div", "none", `pool ${pool}`, panel);
    const cells = element("div", "pool", undefined, panel);
    for (let block = 0; block < 16; block++) {
      const used = state.used.find((other) => other.at === 16 * pool + block);
      const linked = state.linked.find((other) => other.at === 16 * pool + block);
      const cell = element("i", `${used ? "used" : ""} ${linked ? "linked" : ""}`, block, cells);
      if (used) cell.style.background = colourOf(used.pid);
      const owner = used ? `taken by process ${used.pid}` : "unused";
      cell.title = `block ${block} of pool ${pool}, ${owner}${linked ? `, in list ${linked.name}` : ""}`;
    }
  }
  for (const { list, blocks } of state.lists) element("div", "", `list ${list}: ${blocks.join(" → ")}`, panel);
}

function drawTimersAt(panel, timers, clock) {
  if (run.armings.count === 0) return;
  element("h2", "", "timers", panel);
  const list = element("ul", "", undefined, panel);
  for (const { pid, isCallback, number, due } of timers) {
    const when = due > clock ? `in ${due - clock}` : due === clock ? "now" : `${clock - due} ago`;
    const kind = isCallback ? "callback timer" : "timer";
    element("li", due < clock ? "late" : "", `process ${pid}, ${kind} ${number}: due at ${due}, ${when}`, list);
  }
  if (timers.length === 0) element("div", "none", "none is armed", panel);
}

// An event by the words of the call that posted it.
function eventTold(line) {
  const place = line - run.first;
  const text = run.lines[place];
  if (text === undefined) return `posted in line ${line + 1}, which isn't shown`;
  const [, pid, word, rest] = /^(\d+) .* -> (post|broadcast) (.*)$/.exec(text);
  const [to, ...event] = word === "post" ? rest.split(" ") : ["all", ...rest.split(" ")];
  return `from ${pid} to ${to}: event ${event.join(" ")} (line ${line + 1})`;
}

function drawEvents(panel, events) {
  if (run.waits.count === 0) return;
  element("h2", "", "event queue", panel);
  const list = element("ol", "", undefined, panel);
  for (const line of events) element("li", "", eventTold(line), list);
  if (events.length === 0) element("div", "none", "no posted event waits", panel);
}

function drawPanel() {
  const panel = byId("panel");
  panel.replaceChildren();
  if (run.lines.length === 0) return;
  const line = run.first + chosen;
  const state = stateAt(run, line);
  const clock = run.clocks[chosen];
  element("h2", "", `line ${line + 1}${run.quiet ? "" : `, clock ${clock}`}`, panel);
  element("code", "", run.lines[chosen], panel);
  const answer = run.lines[run.answers[chosen] - run.first];
  if (run.answers[chosen] !== null && answer) element("div", "none", `its reply is in line ${run.answers[chosen] + 1}`, panel);
  if (run.quiet) return;
  if (state.active.length > 0) element("div", "", `in activations: ${state.active.join(", ")}`, panel);
  drawEvents(panel, state.events);
  drawTimersAt(panel, state.timers, clock);
  drawRegion(panel, "managed memory", state.managed, run.sizes.managed, run.managed, "handle");
  drawRegion(panel, "heap", state.heap, run.sizes.heap, run.heap, "block", run.sizes.header);
  drawPools(panel, state);
}

// ---- The overview ----

const LANE = 6;
const AXIS = 16;
const INSET = 6;

// How far to the right a place on the axis of the clock is.
const overviewX = (at, width) => INSET + ((at - range.from) / (range.to - range.from)) * (width - 2 * INSET);
const overviewAt = (x, width) => range.from + ((x - INSET) / (width - 2 * INSET)) * (range.to - range.from);

function prepareOverview() {
  const canvas = byId("overview");
  const width = canvas.clientWidth;
  const height = AXIS + pids.length * LANE + 10;
  canvas.style.height = `${height}px`;
  canvas.width = width * devicePixelRatio;
  canvas.height = height * devicePixelRatio;
  const pen = canvas.getContext("2d");
  pen.scale(devicePixelRatio, devicePixelRatio);
  const style = getComputedStyle(document.documentElement);
  return { pen, width, height, colour: (name) => style.getPropertyValue(name) };
}

// The clock at round numbers.
function drawAxis({ pen, width, colour }) {
  const least = ((range.to - range.from) * 90) / width;
  const tens = 10 ** Math.floor(Math.log10(Math.max(least, 1)));
  const step = [1, 2, 5, 10].map((times) => times * tens).find((wide) => wide >= least) ?? 10 * tens;
  pen.fillStyle = colour("--soft");
  pen.font = "10px sans-serif";
  for (let at = Math.ceil(range.from / step) * step; at < range.to; at += step) {
    const x = overviewX(at, width);
    pen.fillRect(x, AXIS - 5, 1, 4);
    pen.fillText(String(at), Math.min(x + 2, width - 7 * String(at).length), AXIS - 6);
  }
}

function drawBars({ pen, width, colour }) {
  const { pid, first, last, count } = run.activations;
  const colours = new Map(pids.map((number) => [number, colour(`--p${number}`)]));
  for (let item = 0; item < count; item++) {
    const from = overviewX(run.places[Math.max(0, first[item] - run.first)], width);
    const to = overviewX(run.ends[Math.min(run.lines.length - 1, last[item] - run.first)], width);
    if (to < 0 || from > width) continue;
    pen.fillStyle = colours.get(pid[item]);
    pen.fillRect(from, AXIS + pids.indexOf(pid[item]) * LANE, Math.max(1, to - from), LANE - 1);
  }
}

function drawMarks({ pen, width, height, colour }) {
  const [input, bad] = [colour("--marked"), colour("--bad")];
  for (let place = 0; place < told.length; place++) {
    const line = told[place];
    if (line.kind !== "input" && line.refusal === null) continue;
    const x = overviewX(run.places[place], width);
    if (x < 0 || x > width) continue;
    pen.fillStyle = line.refusal === null ? input : bad;
    pen.fillRect(x, line.refusal === null ? AXIS - 3 : height - 8, 1, line.refusal === null ? 2 : 4);
  }
}

function drawOverview() {
  const canvas = prepareOverview();
  drawAxis(canvas);
  drawBars(canvas);
  drawMarks(canvas);
  drawCursor();
}

// Puts a mark over a part of the overview.
function putMark(id, from, to, least) {
  const width = byId("overview").clientWidth;
  const [left, right] = [from, to].map((at) => Math.min(Math.max(overviewX(at, width), 0), width));
  byId(id).style.cssText = `left:${left}px;width:${Math.max(least, right - left)}px`;
}

// What moves over the overview: the chosen line, and the lines that can be seen.
function drawCursor() {
  const [first, end] = rowsThere(0);
  const at = run.places[chosen] ?? 0;
  putMark("seen", run.places[kept[first]] ?? range.from, run.ends[kept[end - 1]] ?? range.to, 2);
  putMark("cursor", at, at, 1);
}

// The lines of a part of the clock alone.
function zoomTo(from, to) {
  const least = Math.max((whole.to - whole.from) / 1e7, 1e-6);
  const wide = Math.min(Math.max(to - from, least), whole.to - whole.from);
  const start = Math.min(Math.max(from, whole.from), whole.to - wide);
  range = { from: start, to: start + wide };
  sift();
  drawOverview();
  go(rowOf(chosen));
}

function zoomBy(factor, at = run.places[chosen]) {
  zoomTo(at - (at - range.from) * factor, at + (range.to - at) * factor);
}

// ---- The reader's hands ----

// The row at that place among the kept ones is chosen, and comes into view.
function go(row) {
  if (kept.length === 0) return;
  const there = Math.min(Math.max(row, 0), kept.length - 1);
  chosen = kept[there];
  const box = byId("rows");
  const top = there * ROW;
  if (top < box.scrollTop + ROW) box.scrollTop = top - 3 * ROW;
  else if (top > box.scrollTop + box.clientHeight - 2 * ROW) box.scrollTop = top - box.clientHeight + 4 * ROW;
  draw();
  drawPanel();
  drawCursor();
}

// The nearest row behind the chosen one, or before it, whose line is such a one.
function goToNext(step, isSuch) {
  const from = rowOf(chosen);
  for (let row = kept[from] === chosen || step < 0 ? from + step : from; row >= 0 && row < kept.length; row += step) {
    if (isSuch(told[kept[row]])) {
      go(row);
      return;
    }
  }
}

const page = () => Math.max(1, Math.floor(byId("rows").clientHeight / ROW) - 1);
const isOwn = (line) => line.pid === told[chosen].pid;
const isInput = (line) => line.kind === "input";
const isRefusal = (line) => line.refusal !== null;

const KEYS = {
  ArrowDown: () => goToNext(1, () => true),
  ArrowUp: () => goToNext(-1, () => true),
  ArrowRight: () => goToNext(1, isOwn),
  ArrowLeft: () => goToNext(-1, isOwn),
  i: () => goToNext(1, isInput),
  I: () => goToNext(-1, isInput),
  n: () => goToNext(1, isRefusal),
  N: () => goToNext(-1, isRefusal),
  Home: () => go(0),
  End: () => go(kept.length - 1),
  PageDown: () => go(rowOf(chosen) + page()),
  PageUp: () => go(rowOf(chosen) - page()),
  "+": () => zoomBy(0.5),
  "-": () => zoomBy(2),
  0: () => zoomTo(whole.from, whole.to),
  "/": () => byId("find").focus(),
};

function onKey(event) {
  if (event.target.matches("input, summary, button") || event.ctrlKey || event.metaKey || event.altKey || !KEYS[event.key]) return;
  event.preventDefault();
  KEYS[event.key]();
}

// A drag over the overview picks a part, a click a place.
function listenToOverview() {
  const canvas = byId("overview");
  let begun = null;
  canvas.addEventListener("pointerdown", (event) => {
    begun = event.offsetX;
    canvas.setPointerCapture(event.pointerId);
  });
  const part = (event) => [begun, event.offsetX].sort((a, b) => a - b).map((x) => overviewAt(x, canvas.clientWidth));
  canvas.addEventListener("pointermove", (event) => {
    if (begun !== null) putMark("part", ...part(event), 0);
  });
  canvas.addEventListener("pointerup", (event) => {
    if (begun === null) return;
    const [from, to] = part(event);
    const isClick = Math.abs(event.offsetX - begun) < 4;
    begun = null;
    putMark("part", 0, 0, 0);
    if (!isClick) zoomTo(from, to);
    else go(kept.filter((place) => run.ends[place] <= from).length);
  });
  canvas.addEventListener("wheel", (event) => {
    event.preventDefault();
    zoomBy(event.deltaY < 0 ? 0.8 : 1.25, overviewAt(event.offsetX, canvas.clientWidth));
  }, { passive: false });
}

function listen() {
  let isDue = false;
  byId("rows").addEventListener("scroll", () => {
    if (isDue) return;
    isDue = true;
    requestAnimationFrame(() => {
      isDue = false;
      draw();
      drawCursor();
    });
  });
  byId("rows").addEventListener("click", (event) => {
    const row = Math.floor((event.clientY - byId("space").getBoundingClientRect().top) / ROW);
    if (row < kept.length) go(row);
  });
  byId("filters").addEventListener("submit", (event) => event.preventDefault());
  for (const id of ["inputs", "refused", "find"]) byId(id).addEventListener("input", sift);
  byId("whole").addEventListener("click", KEYS[0]);
  document.addEventListener("keydown", onKey);
  listenToOverview();
  addEventListener("resize", redraw);
  matchMedia("(prefers-color-scheme: dark)").addEventListener("change", redraw);
  addEventListener("hashchange", goToHash);
}

function redraw() {
  drawHeads();
  draw();
  drawOverview();
}

// #N in the address is line N.
function goToHash() {
  const line = /^#(\d+)$/.exec(location.hash);
  go(line ? rowOf(Number(line[1]) - 1 - run.first) : 0);
}

// ---- The head ----

function processBox(pid) {
  const label = element("label", "", undefined, byId("processes"));
  const box = element("input", "", undefined, label);
  box.type = "checkbox";
  box.checked = true;
  box.addEventListener("input", () => {
    if (box.checked) hidden.delete(pid);
    else hidden.add(pid);
    sift();
  });
  element("b", "", ` ${pid} `, label).style.color = colourOf(pid);
  element("span", "", run.names[pid - 4] ?? "", label);
  label.title = run.names[pid - 4] ?? `process ${pid}`;
}

function tally() {
  const count = (isSuch) => told.reduce((sum, line) => sum + (isSuch(line) ? 1 : 0), 0);
  const turns = count((line) => line.kind === "turn");
  const refusals = count(isRefusal);
  const parts = [plural(run.lines.length, "line"), plural(count(isInput), "input"), plural(turns, "turn"), plural(refusals, "refusal")];
  const last = run.lines.at(-1);
  if (!run.quiet) parts.push(`clock ${run.start} to ${run.clocks.at(-1) ?? run.start}`);
  if (run.first + run.lines.length === run.total) parts.push(told.at(-1)?.kind === "end" ? `ends: ${last}` : "ends at rest");
  if (run.lines.length < run.total) parts.push(`a part of ${plural(run.total, "line")}`);
  return parts.join(", ");
}

// What can't be trusted, in words.
function faults() {
  const found = [];
  if (run.quiet) {
    found.push("This transcript is a quiet one: it tells turns that print or send, and frames that were sent."
      + " Clock, memory, timers and queue can't be known from it.");
  }
  if (run.exceeds !== null) {
    found.push(`From line ${run.exceeds + 1} on the run holds more managed memory than the ${run.sizes.managed} bytes that were told.`);
  }
  if (run.differs !== null) {
    found.push(`From line ${run.differs + 1} on the heap isn't the run's: a heap of the given size replies otherwise.`);
  }
  return found.join(" ");
}

function begin() {
  document.title = run.title;
  byId("title").textContent = run.title;
  byId("tally").textContent = tally();
  byId("faults").textContent = faults();
  pids.forEach(processBox);
  drawHeads();
  sift();
  drawOverview();
  listen();
  goToHash();
  byId("rows").focus();
}

begin();
"#;
