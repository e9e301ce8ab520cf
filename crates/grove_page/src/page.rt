/// The page, as tools/page writes it from page/page.html.
pub const PAGE: &str = r##"<!DOCTYPE html>
<html lang="en">
<head>
<meta charset="utf-8">
<meta name="viewport" content="width=device-width, initial-scale=1">
<meta name="color-scheme" content="light dark">
<meta http-equiv="Content-Security-Policy" content="default-src 'none'; connect-src 'self'; style-src 'unsafe-inline';
  script-src 'unsafe-inline'; img-src data:; base-uri 'none'; form-action 'none'">
<link rel="icon" href="data:,">
<title>Pickbracken</title>
<style>
:root {
  --paper: #ffffff; --panel: #f4f6f8; --ink: #1b1f24; --quiet: #4d5661; --line: #b9c1ca; --edge: #6b7682;
  --hot: #f2a65a; --gauge: #8a4300; --bar: #d3e3f2; --work: #0b4a7f; --word: #ffffff; --link: #0b4a7f;
  --bad: #9b1c1c; --writes: #8a3200; --shade: rgb(0 0 0 / .35);
}
@media screen and (prefers-color-scheme: dark) {
  :root {
    --paper: #15181c; --panel: #1e2329; --ink: #e8eaec; --quiet: #b0b8c1; --line: #4a535d; --edge: #808b97;
    --hot: #955000; --gauge: #ffb45c; --bar: #33485c; --work: #a8d1f5; --word: #0c1116; --link: #a8d1f5;
    --bad: #ffb3ab; --writes: #ffb27d; --shade: rgb(255 255 255 / .4);
  }
}
* { box-sizing: border-box; }
body { margin: 0; padding: 1rem 1.25rem 3rem; background: var(--paper); color: var(--ink); }
body, button, select, input, thead th { font: 15px/1.45 system-ui, "Segoe UI", Roboto, sans-serif; }
textarea, pre, code, table, svg text { font-family: ui-monospace, Menlo, Consolas, monospace; font-size: 13px; }
header { display: flex; flex-wrap: wrap; gap: .5rem 1.25rem; align-items: baseline; margin-bottom: 1rem; }
h1 { font-size: 1.3rem; margin: 0; }
h2 { font-size: 1.05rem; margin: 0 0 .5rem; }
h3 { font-size: 1rem; margin: 1.25rem 0 .4rem; }
p { margin: .4rem 0; max-width: 46rem; }
main { display: grid; grid-template-columns: minmax(0, 3fr) minmax(24rem, 2fr); gap: 1.5rem; align-items: start; }
.skip:not(:focus) { position: absolute; clip-path: inset(50%); }
@media (max-width: 62rem) {
  main { grid-template-columns: minmax(0, 1fr); }
  .skip:not(:focus) { position: static; clip-path: none; }
}
a { color: var(--link); }
header a, summary { line-height: 24px; }
header a { display: inline-block; }
button, select, input {
  color: inherit; background: var(--panel); border: 1px solid var(--edge); border-radius: 4px; padding: .25rem .7rem;
}
select, input { background: var(--paper); }
/* What writes has another edge, colour and sign than what reads. */
.writes { color: var(--writes); border: 2px dashed var(--writes); font-weight: 600; }
.writes::before { content: "✎ " / ""; }
button.writes:hover { border-style: solid; border-color: var(--writes); }
button, select, summary, .fold, .path { cursor: pointer; }
button:hover { border-color: var(--ink); }
::placeholder { color: var(--quiet); opacity: 1; }
button[aria-pressed="true"] { background: var(--bar); border-color: var(--ink); }
input[type="search"] { width: 12rem; max-width: 100%; }
:focus-visible { outline: 3px solid var(--link); outline-offset: 1px; }
textarea, pre { padding: .5rem; line-height: 1.5; border: 1px solid var(--edge); border-radius: 4px; }
textarea { width: 100%; min-height: 11rem; resize: vertical; tab-size: 4; color: inherit; background: var(--paper); }
pre { margin: .5rem 0; overflow-x: auto; }
.row { display: flex; flex-wrap: wrap; gap: .5rem 1rem; align-items: baseline; margin: .5rem 0; }
.row.top { margin-top: 0; }
.top h2 { margin: 0; }
.quiet { color: var(--quiet); }
.bad { color: var(--bad); font-weight: 600; }
.anew { font-weight: 600; }
/* A shade at each side on which there is more. */
.wide {
  overflow-x: auto; max-width: 100%;
  background: linear-gradient(to right, var(--paper) 50%, transparent) left / 2rem 100% no-repeat local,
    linear-gradient(to left, var(--paper) 50%, transparent) right / 2rem 100% no-repeat local,
    linear-gradient(to right, var(--shade), transparent) left top / 1rem calc(100% - 1px) no-repeat,
    linear-gradient(to left, var(--shade), transparent) right top / 1rem calc(100% - 1px) no-repeat;
}
.wide :is(thead th, td) { background: none; }
.tall {
  max-height: max(24rem, 100vh - 21rem); overflow: auto; overflow-anchor: none;
  border: 1px solid var(--line); border-radius: 4px;
}
table { border-collapse: separate; border-spacing: 0; }
thead th { font-weight: 600; background: var(--panel); position: sticky; top: 0; z-index: 1; }
th, td { padding: .15rem .6rem; border-bottom: 1px solid var(--line); text-align: right; white-space: nowrap; }
th:first-child, td:first-child, .texts :is(th, td) { text-align: left; }
tbody th { font-weight: normal; }
tfoot td { border-bottom: 0; font-weight: 600; }
[data-by="weight"] .weight, [data-by="waits"] .waits {
  background: linear-gradient(var(--gauge) 0 0) left bottom / calc(var(--heat, 0) * 100%) 4px no-repeat
    color-mix(in srgb, var(--hot) calc(var(--tint, 0) * 100%), var(--paper));
}
td[data-change]::before { content: attr(data-change) " "; }
td[data-change] { font-weight: 700; }
#table {
  --gaps: 1.2rem; --indent: 2ch; --most: 110ch; table-layout: fixed; width: 100%;
  --numbers: calc(var(--weight) + var(--waits) + var(--record) + 4 * var(--gaps));
  min-width: calc(min(var(--node), var(--most)) + var(--numbers) + var(--before, 0px));
}
#table.ranked { --most: 26ch; }
#table.reweighed { --before: calc(var(--was) + var(--gaps)); }
#table tr { height: 26px; }
#table :is(th, td) { padding-block: 0; overflow: hidden; text-overflow: ellipsis; vertical-align: middle; }
#table .gap :is(th, td), #table .gap { height: 0; padding: 0; border: 0; }
.at-weight { width: calc(var(--weight) + var(--gaps)); }
.at-was { width: calc(var(--was) + var(--gaps)); }
.at-waits { width: calc(var(--waits) + var(--gaps)); }
.at-record { width: calc(var(--record) + var(--gaps)); }
#table:not(.reweighed) :is(.was, .at-was) { display: none; }
.was { color: var(--quiet); }
thead button { font: inherit; min-height: 24px; padding: 0; border: 0; background: none; }
thead button:hover { text-decoration: underline; }
[aria-sort="descending"] button::after { content: " ↓"; }
tbody th div { display: flex; align-items: baseline; padding-left: calc(var(--indent) * var(--depth, 0)); }
.fold { flex: none; width: 1.6rem; margin-left: -.4rem; text-align: center; user-select: none; }
.ranked .fold { display: none; }
.above { flex: 0 1 auto; overflow: hidden; text-overflow: ellipsis; color: var(--quiet); }
.name, .within { flex: none; }
.path:hover, .path:hover + .path { text-decoration: underline; }
.within { padding-left: .6rem; color: var(--quiet); }
.beside > :not(.weight, .waits) { color: var(--quiet); }
#table:focus { outline: none; }
#table:focus .active > * { background-color: var(--bar); }
#table:focus .active > th { box-shadow: inset 4px 0 var(--link); }
#table:focus-visible .active { outline: 2px solid var(--link); outline-offset: -2px; }
[hidden] { display: none !important; }
svg { display: block; }
svg text { fill: var(--ink); }
svg .end { text-anchor: end; }
svg .middle { text-anchor: middle; }
svg .grid { stroke: var(--ink); stroke-opacity: .22; }
svg .bar { fill: var(--bar); stroke: var(--ink); }
svg .stroke { stroke: var(--ink); stroke-width: 3; }
svg .work { fill: var(--work); }
svg .word { fill: var(--word); font-weight: 600; font-size: 12px; text-anchor: middle; }
svg .total { font-weight: 600; }
.key svg { display: inline-block; vertical-align: -4px; margin-left: .5rem; }
details { margin: .5rem 0; }
dialog { max-width: 44rem; color: inherit; background: var(--paper); border: 1px solid var(--ink); border-radius: 4px; }
dialog::backdrop { background: rgb(0 0 0 / .5); }
summary { cursor: pointer; }
@media (max-width: 62rem) { .tall { max-height: 60vh; } }
@media (max-width: 30rem) {
  body { padding: .75rem .5rem 2rem; }
  #table { --gaps: .5rem; --indent: 1ch; }
  #table.ranked { --most: 15ch; }
  th, td { padding-inline: .25rem; }
  thead th { font-size: 13px; }
}
@media print {
  .asks, .hint, .skip { display: none !important; }
  main { display: block; }
  .tall { max-height: none; overflow: visible; border: 0; }
  .wide { overflow: visible; background: none; }
  * { print-color-adjust: exact; -webkit-print-color-adjust: exact; }
  section.plan, tr { break-inside: avoid; }
}
</style>
</head>
<body>
<header>
  <h1>Pickbracken</h1>
  <a class="skip" href="#tree-title">To the nodes</a>
  <span id="state" class="quiet">asking for the nodes</span>
  <span class="row asks">
    <button id="follow" type="button">Pause</button>
    <a href="/document" download="document.json">Save the document</a>
  </span>
  <span id="trouble" class="bad" role="alert"></span>
  <span id="anew" class="anew" role="status"></span>
</header>
<noscript><p>This page needs JavaScript. Without it, <a href="/nodes">/nodes</a> and
  <a href="/document">/document</a> tell what the store has.</p></noscript>
<main>
<section aria-labelledby="lists-title">
  <div class="asks">
  <h2 id="lists-title">Lists</h2>
  <p id="help">One access a line: <code>get</code> and a path, or <code>set</code>, <code>add</code> or
    <code>take</code>, a path and a number; behind it how many slots it takes, if more than one. An empty line begins
    another list, and <code>#</code> a comment.</p>
  <textarea id="lists" spellcheck="false" aria-labelledby="lists-title" aria-describedby="help"></textarea>
  <div class="row">
    <button id="plan" type="button" aria-describedby="plan-does">Plan each list</button>
    <span id="plan-does" class="quiet">only looks (Ctrl and Enter)</span>
  </div>
  <div class="row">
    <button id="batch" type="button" class="writes" aria-describedby="batch-does">Run them as a batch</button>
    <span id="batch-does" class="quiet">writes the store's records, and can't be undone</span>
  </div>
  <div id="example" hidden>
    <p>The lists are empty. Here are two for this tree:</p>
    <pre id="example-text"></pre>
    <button id="example-plan" type="button">Plan these two</button>
  </div>
  </div>
  <p id="outcome" class="anew" role="status"></p>
  <div id="answers"></div>
</section>
<section aria-labelledby="tree-title">
  <div class="row top">
    <h2 id="tree-title">Nodes</h2>
    <span id="count" class="quiet" role="status"></span>
  </div>
  <div class="row asks">
    <label>Filter <input id="filter" type="search" placeholder="a part of a path" autocomplete="off" spellcheck="false"
      aria-describedby="count"></label>
    <button id="fold" type="button">Fold all</button>
    <button id="unfold" type="button">Unfold all</button>
  </div>
  <div class="row asks">
    <button id="reweigh" type="button" class="writes" aria-describedby="reweigh-does">Reweigh</button>
    <span id="reweigh-does" class="quiet">writes the store's weights: halves what each is above 1, and adds the node's
      waits</span>
    <span id="reweighed" role="status"></span>
  </div>
  <div class="row" id="changed" hidden>
    <button id="only" type="button" class="asks" aria-pressed="false" aria-describedby="only-does">Changed only</button>
    <span id="only-does" class="quiet">shows the nodes whose weights changed; <em>was</em> is the weight before</span>
  </div>
  <div class="row">
    <label class="asks">Colour by <select id="by" aria-describedby="legend">
      <option>weight</option><option>waits</option></select></label>
    <span class="quiet" id="legend"></span>
  </div>
  <div class="tall" id="box"><table id="table" role="treegrid" tabindex="0" aria-labelledby="tree-title"
    aria-describedby="keys">
    <colgroup><col><col class="at-weight"><col class="at-was"><col class="at-waits"><col class="at-record"></colgroup>
    <thead><tr aria-rowindex="1">
      <th scope="col"><button type="button" data-order="tree" title="in the tree's order">node</button></th>
      <th scope="col"><button type="button" data-order="weight" title="the greatest weight first">weight</button></th>
      <th scope="col" class="was" title="the weight before the last reweighing">was</th>
      <th scope="col"><button type="button" data-order="waits" title="the most waits first">waits</button></th>
      <th scope="col">record</th></tr></thead>
    <tbody id="nodes"></tbody>
  </table></div>
  <p id="written" role="status"></p>
  <p class="quiet hint" id="keys">A click on a node, or Enter, writes <code>get</code> of it into the lists. The arrow
    keys go up and down, and fold and unfold; a click on <em>weight</em>, <em>waits</em> or <em>node</em> orders.</p>
  <p class="quiet">A <em>weight</em> says how much others need the node, <em>waits</em> how often a lock found it held
    in a long round since the last reweighing. The <em>record</em> is its number.</p>
</section>
</main>
<dialog id="lowering" aria-labelledby="lowering-title" aria-describedby="lowers">
  <h2 id="lowering-title">Lower the weights?</h2>
  <p id="lowers"></p>
  <p>A reweighing halves what each weight is above 1, and then adds the node's waits. Waits come of long rounds only,
    those of 65,536 steps or more. It can't be undone.</p>
  <div class="row">
    <button id="lower" type="button">Lower them</button>
    <button id="keep" type="button" autofocus>Keep them</button>
  </div>
</dialog>
<script>
"use strict";
const byId = (id) => document.getElementById(id);
// How long the page waits between two looks at the nodes, and for an answer, in milliseconds. The server answers a look
// that waits for a round within 30 seconds.
const PAUSE = 1000, PATIENCE = 45000;

// ---- what the server is asked

/** JSON, in which a whole number that JavaScript would round stays a text. (No text of the server's has one in it.) */
function parsed(text) {
  try {
    return JSON.parse(text.replace(/([[:,])(-?\d{16,})(?=[,\]}])/g, '$1"$2"'));
  } catch {
    throw new Refused("What came isn't an answer of the server's.");
  }
}

class Refused extends Error {}

async function answerOf(path, how) {
  let response, text;
  try {
    response = await fetch(path, { cache: "no-store", signal: AbortSignal.timeout(PATIENCE), ...how });
    text = await response.text();
  } catch {
    const isAsked = how.method === "POST" ? " Whether it did what it was asked isn't known." : "";
    throw new Refused(`The server doesn't answer.${isAsked}`);
  }
  if (response.ok || (response.status === 400 && text !== "")) return text;
  // What stands between may answer too, with a page of its own.
  const isTold = response.headers.get("content-type")?.startsWith("application/json");
  const told = isTold ? text.trim() : response.statusText;
  throw new Refused(`The server answered ${response.status}${told && `: ${told}`}`);
}

/** The reply to each line, as a value; a refusal has a hint. */
async function repliesTo(lines) {
  const text = await answerOf("/?hints", { method: "POST", body: lines.join("\n") + "\n" });
  return text.split("\n").slice(0, -1).map(parsed);
}

const FAULTS = {
  "no-path": "an access names a node that isn't there",
  "bad-length": "an access takes 1 to 1000 slots",
  "limit": "there are more than 64 accesses in a list, or more than 256 lists",
  "shape": "something isn't of the form asked for; a number may have 64 bits",
  "long-line": "there is more of it than a line may have, 1,048,576 bytes",
  "memory": "the server has no memory for it",
  "unkept": "the server couldn't keep it in its file, and ends",
  "rounds": "the store can count no further round",
};

/** Why something is refused, once: by the hint, which is about this very line, or else by what the name means. */
function faultText({ error, hint }) {
  const why = hint ?? FAULTS[error];
  return `refused as ${error}${why ? `: ${why}` : ""}`;
}

// ---- elements

const SVG = "http://www.w3.org/2000/svg";

function filled(element, attributes, inside) {
  for (const [name, value] of Object.entries(attributes)) element.setAttribute(name, value);
  element.append(...inside);
  return element;
}

const make = (name, attributes = {}, ...inside) => filled(document.createElement(name), attributes, inside);
const draw = (name, attributes = {}, ...inside) => filled(document.createElementNS(SVG, name), attributes, inside);

function tableOf(name, heads, rows, { foot, kind = "" }) {
  const headRow = make("tr", {}, ...heads.map((head) => make("th", { scope: "col" }, head)));
  const line = (cells) => make("tr", {}, ...cells.map((cell) => make("td", {}, String(cell))));
  const parts = [make("thead", {}, headRow), make("tbody", {}, ...rows.map(line))];
  if (foot) parts.push(make("tfoot", {}, line(foot)));
  return scrolling(name, make("table", { class: kind, "aria-label": name }, ...parts));
}

/** What may be wider than there is room for: where it is, that is said, and it scrolls by keys too. */
function scrolling(name, inside) {
  const box = make("div", { class: "wide" }, inside);
  const cue = make("p", { class: "quiet asks", hidden: "" }, "This is wider than the page: scroll it to the right. →");
  new ResizeObserver(() => {
    const isWider = box.scrollWidth > box.clientWidth + 1;
    cue.hidden = !isWider;
    for (const [key, value] of Object.entries({ tabindex: "0", role: "region", "aria-label": name })) {
      put(box, key, isWider ? value : null);
    }
  }).observe(box);
  return make("div", {}, cue, box);
}

// These leave be what is as it should be, so that a look at many nodes that are as they were costs little.
function write(element, text) {
  if (element.textContent !== text) element.textContent = text;
}

function put(element, name, value) {
  if (value === null) element.removeAttribute(name);
  else if (element.getAttribute(name) !== String(value)) element.setAttribute(name, value);
}

function setStyle(element, name, value) {
  if (element.style.getPropertyValue(name) !== String(value)) element.style.setProperty(name, value);
}

function bad(text) {
  return make("p", { class: "bad", role: "alert" }, text);
}

// ---- looking

/** How many rounds the last look found, if the server counts them, and when it was. */
let rounds, lookedAt;
/** What is said of where rounds are kept. */
let keeps = "";
/** How many looks have begun, and the last one of those that were shown. */
let begun = 0, latest = 0;
/** Whether the page asks by itself, and what ends such a look. */
let isFollowing = true, following = new AbortController();

const timeNow = () => new Date().toLocaleTimeString();
const counted = (count, word) => `${count} ${word}${String(count) === "1" ? "" : "s"}`;

/** Looks at the nodes; what comes later than the answer to a look that began after it is let be. */
async function look(query = "", how = {}) {
  const number = (begun += 1);
  try {
    const found = parsed(await answerOf("/nodes" + query, how));
    if (number < latest) return;
    latest = number;
    if (found.error) throw new Refused(faultText(found));
    if (rounds === undefined || isOfAnother(found.nodes, found.round)) await askWhetherKept();
    takeLook(found);
    write(byId("trouble"), "");
  } catch (error) {
    if (isFollowing || !how.signal) write(byId("trouble"), error.message);
  }
}

/** Whether rounds are kept in a file, by what the server counts. */
async function askWhetherKept() {
  const counts = await answerOf("/metrics", {}).catch(() => "");
  keeps = /^grove_data_rounds /m.test(counts) ? ", kept in a file" : "";
}

function takeLook({ nodes, round }) {
  const isAnew = isOfAnother(nodes, round);
  const when = timeNow();
  if (isAnew) {
    const before = rounds === undefined ? "" : `; before, it had done ${counted(rounds, "round")}`;
    byId("anew").textContent = `The server was started anew between ${lookedAt} and ${when}${before}.`;
  }
  [rounds, lookedAt] = [round, when];
  takeNodes(nodes, isAnew);
  const told = rounds === undefined ? "" : `, ${counted(rounds, "round")} done (each runs one batch or several)`;
  byId("state").textContent = `${counted(tree.length, "node")}${told}${keeps}, as of ${when}`;
}

/** Was the server started anew since the last look? A server's tree doesn't change, and its rounds only rise. */
function isOfAnother(nodes, round) {
  return tree.length > 0 && (!isKnown(nodes) || BigInt(round ?? 0) < BigInt(rounds ?? 0));
}

/** One look after the other, while the page is in view. One waits for the next round; the first, and one after trouble,
    doesn't. */
async function follow() {
  for (;;) {
    if (isFollowing && !document.hidden) {
      const isWell = byId("trouble").textContent === "" && rounds !== undefined;
      following = new AbortController();
      const end = setTimeout(() => following.abort(), PATIENCE);
      await look(isWell ? `?after=${rounds}` : "", { signal: following.signal });
      clearTimeout(end);
    }
    await new Promise((done) => setTimeout(done, PAUSE));
  }
}

function toggleFollowing() {
  isFollowing = !isFollowing;
  if (!isFollowing) following.abort();
  byId("follow").textContent = isFollowing ? "Pause" : "Follow";
}

// ---- the tree

const NUMBERS = ["weight", "waits", "record"];
// A tree of more nodes than these begins folded below this depth.
const MANY = 200, DEEP = 2;
const UNMARKED = {};

/** The nodes by their places in the tree's order, each with what the last look found of it. */
let tree = [];

/** Parents and ends of subtrees are places; `marks` tells what rose and what fell at the last change that was seen,
    `was` the weight before. */
function treeOf(nodes) {
  const places = new Map(nodes.map((node, at) => [node.path, at]));
  const planted = nodes.map((node, at) => {
    const cut = node.path.lastIndexOf("/");
    const parent = at ? places.get(node.path.slice(0, cut) || "/") : -1;
    const name = node.path.slice(cut + 1) || "/";
    return { path: node.path, name, depth: depthOf(node.path), parent, end: at + 1, node, marks: UNMARKED };
  });
  for (let at = planted.length - 1; at > 0; at -= 1) {
    const above = planted[planted[at].parent];
    above.end = Math.max(above.end, planted[at].end);
  }
  return planted;
}

function depthOf(path) {
  return path === "/" ? 0 : path.split("/").length - 1;
}

const hasBelow = (place) => tree[place].end > place + 1;

function isKnown(nodes) {
  return nodes.length === tree.length && nodes.every(({ path }, at) => path === tree[at].path);
}

/** Takes what a look found; of a tree that the page knows it marks what rose and what fell. These marks stay until a
    look finds other numbers, so that a second look at the same change leaves them. */
function takeNodes(nodes, isAnew) {
  const isOther = !isKnown(nodes);
  if (isOther) plant(nodes);
  if (isAnew) forgetReweighing("");
  else noteReweighing(nodes);
  const hasChanged = tree.some(({ node }, at) => NUMBERS.some((name) => node[name] !== nodes[at][name]));
  if (isAnew || hasChanged) tree.forEach((entry, at) => renew(entry, nodes[at], isAnew));
  showTree();
  if (isOther) measure();
}

function plant(nodes) {
  tree = treeOf(nodes);
  forgetReweighing("");
  view.folded = tree.length > MANY ? foldsFrom(DEEP) : new Set();
  view.active = 0;
  drawn = new Map();
  showExample();
}

function renew(entry, node, isAnew) {
  entry.marks = UNMARKED;
  for (const name of NUMBERS) {
    if (isAnew || node[name] === entry.node[name]) continue;
    entry.marks = { ...entry.marks, [name]: BigInt(node[name]) > BigInt(entry.node[name]) ? "▲" : "▼" };
  }
  entry.node = node;
}

/** Only new weights change weights: where some differ, those before them are kept until the next ones. */
function noteReweighing(nodes) {
  const changed = tree.filter((entry, at) => entry.node.weight !== nodes[at].weight).length;
  if (!changed) return;
  tree.forEach((entry, at) => {
    entry.was = entry.node.weight === nodes[at].weight ? undefined : entry.node.weight;
  });
  byId("reweighed").textContent = `${counted(changed, "weight")} changed, seen at ${timeNow()}`;
  byId("changed").hidden = false;
}

function forgetReweighing(words) {
  for (const entry of tree) entry.was = undefined;
  byId("reweighed").textContent = words;
  byId("changed").hidden = true;
  setOnly(false);
}

/** The nodes whose weights a reweighing would lower, if there are no waits, so that it would do nothing else. */
function loweredAlone() {
  return tree.some(({ node }) => node.waits > 0) ? [] : tree.filter(({ node }) => node.weight > 1);
}

/** Asks whether these weights are to be lowered. */
function isToLower(entries) {
  const dialog = byId("lowering");
  const greatest = Math.max(...entries.map(({ node }) => node.weight));
  const after = 1 + Math.floor((greatest - 1) / 2);
  const falling = `${counted(entries.length, "weight")} of ${tree.length}`;
  byId("lowers").textContent = `No node has waits. So ${falling} would fall, `
    + `the greatest from ${greatest} to ${after}, and none would rise.`;
  dialog.returnValue = "";
  dialog.showModal();
  return new Promise((resolve) => {
    dialog.addEventListener("close", () => resolve(dialog.returnValue === "lower"), { once: true });
  });
}

async function reweigh() {
  try {
    await look();
    // Nothing is written that nobody has seen.
    if (byId("trouble").textContent !== "") return;
    const lowered = loweredAlone();
    if (lowered.length && !await isToLower(lowered)) return;
    const [reply] = await repliesTo(['{"reweigh":null}']);
    if (reply.error) throw new Refused(faultText(reply));
    forgetReweighing("no weight changed");
    await look();
    if (reply.changed) byId("reweighed").textContent = `${counted(reply.changed, "weight")} changed at ${timeNow()}`;
  } catch (error) {
    byId("reweighed").textContent = error.message;
  }
}

// ---- which nodes the table has

/** How the table shows the tree: its order, its filter, the folded places without and with a filter, and the place that
    the keys are about. */
const view = { order: "tree", filter: "", isOnlyChanged: false, folded: new Set(), foldedHits: new Set(), active: 0 };
/** The places that the table has by these, in its order, and those of them that the filter doesn't ask for. */
let shown = [], beside = new Set();

const isFiltered = () => view.filter !== "" || view.isOnlyChanged;
const folds = () => (isFiltered() ? view.foldedHits : view.folded);
const isHit = (entry) => entry.path.includes(view.filter) && (!view.isOnlyChanged || entry.was !== undefined);

function foldsFrom(depth) {
  return new Set([...tree.keys()].filter((place) => tree[place].depth >= depth && hasBelow(place)));
}

/** The places of the nodes asked for, the greatest first. */
function ranked(order) {
  const hits = [...tree.keys()].filter((place) => isHit(tree[place]));
  const rank = (place) => Number(tree[place].node[order]);
  return hits.sort((one, other) => rank(other) - rank(one) || one - other);
}

/** The places of the nodes asked for and of those above them, without what is folded. */
function unfolded() {
  const hits = tree.map(isHit), kept = [...hits], found = [];
  for (let at = tree.length - 1; at > 0; at -= 1) if (kept[at]) kept[tree[at].parent] = true;
  for (let at = 0; at < tree.length; at = kept[at] && !folds().has(at) ? at + 1 : tree[at].end) {
    if (kept[at]) found.push(at);
  }
  beside = new Set(found.filter((place) => !hits[place]));
  return found;
}

function arrange() {
  beside = new Set();
  shown = view.order === "tree" ? unfolded() : ranked(view.order);
  const there = new Set(shown);
  while (view.active > 0 && !there.has(view.active)) view.active = tree[view.active].parent;
  if (!there.has(view.active)) view.active = shown[0] ?? 0;
  noteSiblings();
}

/** Of each shown place its number among those with the same parent, and how many these are. */
function noteSiblings() {
  const counts = new Map();
  for (const place of shown) {
    const { parent } = tree[place];
    counts.set(parent, (counts.get(parent) ?? 0) + 1);
    tree[place].number = counts.get(parent);
  }
  for (const place of shown) tree[place].among = counts.get(tree[place].parent);
}

// ---- the table

// So many rows beyond those in view are in the document, on both sides.
const SPARE = 12;
// As in the style.
const NARROW = matchMedia("(max-width: 30rem)");
/** The rows in the document by their places, how high a row is, and the greatest number that the heat is by. */
let drawn = new Map(), rowHeight = 26, most = 1, isPrinting = false;
/** Which part of the shown nodes these rows are. */
let part = "";

function showTree() {
  arrange();
  const by = byId("by").value, table = byId("table");
  most = tree.reduce((most, { node }) => Math.max(most, Number(node[by])), 0);
  table.dataset.by = by;
  table.classList.toggle("ranked", view.order !== "tree");
  table.classList.toggle("reweighed", tree.some((entry) => entry.was !== undefined));
  put(table, "aria-rowcount", shown.length + 1);
  write(byId("legend"), `Colour and bar grow with a node's ${by}, up to ${most}. ▲ rose, and ▼ fell, at the last`
    + " change.");
  write(byId("count"), countText());
  showHeads();
  fitColumns(table);
  drawRows();
}

function showHeads() {
  for (const button of document.querySelectorAll("[data-order]")) {
    const isOrder = view.order !== "tree" && button.dataset.order === view.order;
    put(button.parentElement, "aria-sort", isOrder ? "descending" : "none");
  }
}

function countText() {
  const hits = isFiltered() ? tree.filter(isHit).length : tree.length;
  const hidden = hits + beside.size - shown.length;
  const found = isFiltered() ? `${hits || "none"} of ${counted(tree.length, "node")}` : "";
  return [found, hidden > 0 ? `${hidden} folded away` : ""].filter(Boolean).join(", ");
}

/** Gives each column room for the longest that it has, with a mark, and for its head, with an arrow if it orders. */
function fitColumns(table) {
  const longest = (sizes) => sizes.reduce((most, size) => Math.max(most, size), 0);
  const sizes = { was: 5, node: 5 + longest(shown.map((place) => nameOf(tree[place]).length)) };
  for (const name of NUMBERS) {
    const head = name.length + (NARROW.matches ? 1 : 2) + (view.order === name ? 2 : 0);
    sizes[name] = Math.max(head, 2 + longest(tree.map(({ node }) => String(node[name]).length)));
  }
  for (const [name, size] of Object.entries(sizes)) table.style.setProperty(`--${name}`, `${size}ch`);
}

/** What stands for a node: its path, of which the tree's order leaves out what is above, but for the room. */
function nameOf(entry) {
  return view.order === "tree" ? " ".repeat((NARROW.matches ? 1 : 2) * entry.depth) + entry.name : entry.path;
}

/** Puts the rows in view into the document, and room in place of those before and behind them. */
function drawRows() {
  const inView = Math.ceil(window.innerHeight / rowHeight) + 2 * SPARE;
  const wanted = Math.floor(byId("box").scrollTop / rowHeight) - SPARE;
  const first = isPrinting ? 0 : Math.max(0, Math.min(wanted, shown.length - inView));
  const places = shown.slice(first, isPrinting ? shown.length : first + inView);
  const rows = places.map((place) => drawn.get(place) ?? rowOf(place));
  rows.forEach((row, at) => fill(row, places[at], first + at));
  drawn = new Map(places.map((place, at) => [place, rows[at]]));
  const partNow = [shown.length, first, ...places].join();
  if (partNow !== part) {
    const behind = shown.length - first - rows.length;
    byId("nodes").replaceChildren(gap(first), ...rows.map((row) => row.element), gap(behind));
  }
  part = partNow;
  put(byId("table"), "aria-activedescendant", drawn.has(view.active) ? `node-${view.active}` : null);
}

function gap(count) {
  const row = make("tr", { class: "gap", "aria-hidden": "true" }, make("td"));
  row.style.height = `${count * rowHeight}px`;
  return row;
}

function rowOf(place) {
  const spans = ["fold", "above path", "name path", "within"].map((name) => make("span", { class: name }));
  const cells = ["weight", "was", "waits", "record"].map((name) => make("td", { class: name }));
  const head = make("th", { scope: "row", title: tree[place].path }, make("div", {}, ...spans));
  put(spans[0], "aria-hidden", "true");
  const element = make("tr", { id: `node-${place}`, "data-place": place }, head, ...cells);
  const [weight, was, waits, record] = cells;
  return { element, spans, was, cells: { weight, waits, record } };
}

/** Writes into a row what is to be seen of a node, at this place of the table. */
function fill({ element, spans, was, cells }, place, at) {
  const entry = tree[place], isTree = view.order === "tree", isFolded = isTree && folds().has(place);
  put(element, "aria-rowindex", at + 2);
  put(element, "aria-level", isTree ? entry.depth + 1 : 1);
  put(element, "aria-posinset", isTree ? entry.number : at + 1);
  put(element, "aria-setsize", isTree ? entry.among : shown.length);
  put(element, "aria-expanded", isTree && hasBelow(place) ? !isFolded : null);
  put(element, "class", `${place === view.active ? "active" : ""} ${beside.has(place) ? "beside" : ""}`.trim());
  const sign = isFolded ? "▸" : "▾";
  const above = isTree ? "" : entry.path.slice(0, entry.path.length - entry.name.length);
  const within = isFolded ? `+${entry.end - place - 1}` : "";
  [isTree && hasBelow(place) ? sign : "", above, entry.name, within].forEach((text, at) => write(spans[at], text));
  setStyle(element, "--depth", isTree ? entry.depth : 0);
  const heat = Number(entry.node[byId("by").value]) / Math.max(1, most);
  setStyle(element, "--heat", heat);
  // Small numbers have a colour too.
  setStyle(element, "--tint", Math.sqrt(heat));
  for (const [name, cell] of Object.entries(cells)) {
    write(cell, String(entry.node[name]));
    put(cell, "data-change", entry.marks[name] ?? null);
  }
  write(was, String(entry.was ?? ""));
}

// ---- going about in the table

function activate(place) {
  view.active = place;
  const box = byId("box"), top = shown.indexOf(place) * rowHeight;
  const room = box.clientHeight - box.querySelector("thead").offsetHeight;
  if (top < box.scrollTop) box.scrollTop = top;
  else if (top + rowHeight > box.scrollTop + room) box.scrollTop = top + rowHeight - room;
  drawRows();
}

function toggleFold(place) {
  if (!folds().delete(place)) folds().add(place);
  showTree();
}

/** To the right a folded node unfolds, and another one is left for the first below; to the left the other way round. */
function goIn() {
  if (view.order !== "tree" || !hasBelow(view.active)) return;
  if (folds().has(view.active)) toggleFold(view.active);
  else activate(shown[Math.min(shown.length - 1, shown.indexOf(view.active) + 1)]);
}

function goOut() {
  if (view.order !== "tree") return;
  if (hasBelow(view.active) && !folds().has(view.active)) toggleFold(view.active);
  else if (view.active > 0) activate(tree[view.active].parent);
}

function onTableKey(event) {
  if (event.target !== byId("table") || event.altKey || event.ctrlKey || event.metaKey || !shown.length) return;
  const moves = { ArrowDown: 1, ArrowUp: -1, PageDown: 20, PageUp: -20, Home: -shown.length, End: shown.length };
  const acts = { ArrowRight: goIn, ArrowLeft: goOut, Enter: () => writeAccess(tree[view.active].path) };
  if (event.key in moves) {
    const at = shown.indexOf(view.active) + moves[event.key];
    activate(shown[Math.max(0, Math.min(shown.length - 1, at))]);
  } else if (event.key in acts) acts[event.key]();
  else return;
  event.preventDefault();
}

function onTableClick(event) {
  const row = event.target.closest("[data-place]");
  if (!row) return;
  view.active = Number(row.dataset.place);
  if (event.target.closest(".fold") && hasBelow(view.active)) toggleFold(view.active);
  else drawRows();
  if (event.target.closest(".path")) writeAccess(tree[view.active].path);
}

/** The keys begin where the table is looked at. */
function onTableFocus() {
  if (drawn.has(view.active) || !shown.length) return;
  view.active = shown[Math.min(shown.length - 1, Math.ceil(byId("box").scrollTop / rowHeight))];
  drawRows();
}

/** Another order, filter or fold is seen from its beginning. */
function showFromTop() {
  byId("box").scrollTop = 0;
  showTree();
}

function setOrder(event) {
  const { order } = event.target.closest("[data-order]")?.dataset ?? {};
  if (!order) return;
  view.order = order;
  showFromTop();
}

function setFilter() {
  view.filter = byId("filter").value.trim().toLowerCase();
  view.foldedHits = new Set();
  showFromTop();
}

function setOnly(isOnly) {
  view.isOnlyChanged = isOnly;
  view.foldedHits = new Set();
  put(byId("only"), "aria-pressed", isOnly);
}

function setFolds(folded) {
  if (isFiltered()) view.foldedHits = folded;
  else view.folded = folded;
  view.order = "tree";
  showFromTop();
}

function setPrinting(isNow) {
  isPrinting = isNow;
  drawRows();
}

/** How high a row is follows from the letters. */
function measure() {
  const [row] = drawn.values();
  rowHeight = row?.element.getBoundingClientRect().height || rowHeight;
  part = "";
  drawRows();
}

// ---- the lists

const NUMBER = /^-?(0|[1-9][0-9]*)$/;

function writeAccess(path) {
  const lists = byId("lists");
  const before = lists.value === "" || lists.value.endsWith("\n") ? "" : "\n";
  lists.value += `${before}get ${path}\n`;
  lists.scrollTop = lists.scrollHeight;
  byId("written").textContent = `get ${path} is the last line of the lists.`;
  showExample();
}

/** Two lists about nodes that have none below them, far from each other. */
function exampleText() {
  const leaves = tree.filter((entry, place) => !hasBelow(place)).map((entry) => entry.path);
  const [first, middle, last] = [0, Math.floor(leaves.length / 2), leaves.length - 1].map((at) => leaves[at]);
  return `get ${first}\nadd ${middle} 1\nget ${last}\n\nget ${middle}\n`;
}

/** Where the lists are empty, there is an example to click. */
function showExample() {
  const lists = byId("lists"), isEmpty = lists.value.trim() === "";
  byId("example").hidden = !isEmpty || !tree.length;
  if (!isEmpty || !tree.length) return;
  const text = exampleText();
  put(lists, "placeholder", text.split("\n", 2).join("\n"));
  write(byId("example-text"), text.trim());
}

function planExample() {
  byId("lists").value = exampleText();
  showExample();
  byId("lists").focus();
  answer(planned);
}

/** An access as its line tells it, and its JSON. */
function accessOf(line, number) {
  const [operation, path, ...numbers] = line.split(/\s+/);
  const wanted = { get: 0, set: 1, add: 1, take: 1 }[operation];
  const wrong = (text) => new Refused(`Line ${number}: ${text}`);
  if (wanted === undefined) throw wrong(`${operation} is no operation; there are get, set, add and take`);
  if (path === undefined) throw wrong(`a path has to come after ${operation}, as in ${operation} /a`);
  if (!numbers.every((text) => NUMBER.test(text))) throw wrong("after the path only whole numbers may come");
  if (numbers.length < wanted) throw wrong(`a number has to come after the path, as in ${operation} ${path} 1`);
  if (numbers.length > wanted + 1) throw wrong("there are too many numbers after the path");
  const json = `[${[JSON.stringify(operation), JSON.stringify(path), ...numbers].join(",")}]`;
  return { operation, path, length: Number(numbers[wanted] ?? 1), text: line, json };
}

/** The lists of the text: accesses one below the other, and empty lines between the lists. */
function listsOf(text) {
  const lists = [[]];
  text.split("\n").forEach((whole, at) => {
    const line = whole.replace(/#.*/, "").trim();
    if (line) lists.at(-1).push(accessOf(line, at + 1));
    else if (!whole.includes("#") && lists.at(-1).length) lists.push([]);
  });
  if (lists.length > 1 && !lists.at(-1).length) lists.pop();
  if (!lists[0].length) throw new Refused("There is no access in the lists yet.");
  return lists;
}

const jsonOf = (list) => `[${list.map((access) => access.json).join(",")}]`;

/** Is a call under way? Then there is no other one, so that no batch runs twice by a second click. */
let isAsking = false;

/** Asks what the lists are about, and shows what the call makes of it, or why there is nothing. */
async function answer(call) {
  if (isAsking) {
    byId("outcome").textContent = "The answer to the last one isn't there yet.";
    return;
  }
  isAsking = true;
  try {
    const { outcome, shown } = await call(listsOf(byId("lists").value));
    byId("outcome").textContent = outcome;
    byId("answers").replaceChildren(...shown);
  } catch (error) {
    if (!(error instanceof Refused)) throw error;
    byId("outcome").textContent = "";
    byId("answers").replaceChildren(bad(error.message));
  } finally {
    isAsking = false;
  }
}

async function planned(lists) {
  const replies = await repliesTo(lists.map((list) => `{"plan":${jsonOf(list)}}`));
  const plans = replies.filter((reply) => !reply.error);
  const sections = replies.map((reply, at) => planSection(lists[at], reply, at));
  return {
    outcome: `${counted(plans.length, "list")} of ${lists.length} planned. Nothing has changed.`,
    shown: plans.length ? [keyOfPictures(), ...sections] : sections,
  };
}

async function batched(lists) {
  const [reply] = await repliesTo([`{"batch":[${lists.map(jsonOf).join(",")}]}`]);
  if (reply.error) throw new Refused(`Nothing has changed. The batch is ${faultText(reply)}`);
  const rows = lists.flatMap((list, at) =>
    list.map((access, number) => [at + 1, reply.places[at], access.text, reply.replies[at][number]]));
  await look();
  return {
    outcome: `Done in round ${reply.round}. The records are written.`,
    shown: [
      make("p", {}, "The replies are those of lists that are done one after the other, by their places."),
      tableOf("the replies", ["list", "place", "access", "reply"], rows, { kind: "texts" }),
    ],
  };
}

// ---- a plan

/** Of each node that the plan locks, how many accesses come before its lock and before its release. */
function barsOf(steps) {
  const bars = new Map();
  let done = 0;
  for (const [kind, what] of steps) {
    if (kind === "lock") bars.set(what, { lock: done, release: done });
    else if (kind === "unlock") bars.get(what).release = done;
    else done += 1;
  }
  return bars;
}

/** How many slots come before each access, and after the last one. */
function slotsOf(list) {
  const slots = [0];
  for (const access of list) slots.push(slots.at(-1) + access.length);
  return slots;
}

/** The weights that the plan was made for, of which the flow tells: at each release its amounts make up the weight. */
function weightsOf(flow) {
  const above = (path) => path.slice(0, path.lastIndexOf("/")) || "/";
  const weights = new Map(flow.map((row) => [row.node, Number(row.last) + Number(row.own)]));
  for (const row of flow) {
    if (row.node !== "/" && weights.has(above(row.node))) {
      weights.set(above(row.node), weights.get(above(row.node)) + Number(row.held));
    }
  }
  return weights;
}

function planSection(list, reply, at) {
  const name = `list ${at + 1}`, title = `List ${at + 1}`;
  const section = make("section", { class: "plan", "aria-label": title }, make("h3", {}, title));
  if (reply.error) {
    section.append(bad(`It is ${faultText(reply)}`));
    return section;
  }
  const weights = weightsOf(reply.flow), bars = barsOf(reply.plan), slots = slotsOf(list);
  const costs = reply.flow.map(({ node }) => {
    const bar = bars.get(node);
    return { node, ...bar, weight: weights.get(node), held: slots[bar.release] - slots[bar.lock] };
  });
  section.firstChild.append(`: the least cost is ${reply.cost}`);
  section.append(
    scrolling(`the plan of ${name}`, picture(list, slots, costs, reply.cost)),
    stepsDetails(name, reply.plan),
    certificate(name, list, slots, weights, reply),
  );
  return section;
}

/** What light and dark are in the pictures, and what a cost is. */
function keyOfPictures() {
  const sign = (...inside) => draw("svg", { width: 40, height: 18, "aria-hidden": "true" }, ...inside);
  const light = draw("rect", { class: "bar", x: 1, y: 1, width: 38, height: 16 });
  const dark = draw("rect", { class: "work", x: 1, y: 2, width: 38, height: 14 });
  const stroke = draw("path", { class: "stroke", d: "M20 0V18" });
  return make("p", { class: "key" }, sign(light), " held ", sign(dark), " accessed ", sign(stroke),
    " locked and released at one slot. A plan's cost is each node's weight times the slots it is held, added up.");
}

function picture(list, slots, bars, cost) {
  const ROW = 24, LEFT = 16, TOP = 50, COSTS = 220;
  // Each access has room for its word.
  const COLUMN = Math.max(46, ...list.map((access) => wordOf(access).length * 8 + 8));
  const depths = bars.map((bar) => depthOf(bar.node) - depthOf(bars[0].node));
  const names = bars.map((bar, at) => (at ? bar.node.slice(bar.node.lastIndexOf("/") + 1) : bar.node));
  const weightsEnd = LEFT + 70 + Math.max(40, ...names.map((name, at) => name.length * 8 + depths[at] * 14));
  const begin = weightsEnd + 20;
  // What is left of the page's width is shared by the accesses, by their lengths.
  const left = byId("answers").clientWidth - begin - list.length * COLUMN - COSTS;
  const share = Math.max(0, Math.min(left, slots.at(-1) * 14));
  const x = (access) => begin + access * COLUMN + Math.round((slots[access] / Math.max(1, slots.at(-1))) * share);
  const end = x(list.length), width = Math.max(end + COSTS, 520), height = TOP + bars.length * ROW + 30;
  const text = (x, y, words, name = "") => draw("text", { x, y, class: name }, words);
  const ends = (bar) => `${bar.node}: locked at slot ${slots[bar.lock]}, released at slot ${slots[bar.release]}`;
  const told = `A plan of cost ${cost}. ${bars.map(ends).join("; ")}`;
  const svg = draw("svg", { width, height, viewBox: `0 0 ${width} ${height}`, role: "img", "aria-label": told });
  svg.append(text(LEFT, 32, "node"), text(weightsEnd, 32, "weight", "end"));
  svg.append(text((begin + end) / 2, 14, "slots", "middle"), text(end + 20, 32, "weight × slots = cost"));
  slots.forEach((slot, at) => {
    const line = draw("path", { class: "grid", d: `M${x(at)} 38V${height - 30}` });
    svg.append(text(x(at), 32, String(slot), "middle"), line);
  });
  bars.forEach((bar, at) => {
    const y = TOP + at * ROW;
    const row = draw("g", {}, draw("title", {}, ends(bar)));
    row.append(text(LEFT + depths[at] * 14, y + 9, names[at]), text(weightsEnd, y + 9, String(bar.weight), "end"));
    row.append(text(end + 20, y + 9, `${bar.weight} × ${bar.held} = ${bar.weight * bar.held}`));
    row.append(...barOf(bar, list, x, y));
    svg.append(row);
  });
  const sum = bars.reduce((sum, bar) => sum + bar.weight * bar.held, 0);
  svg.append(text(LEFT, height - 10, "total", "total"));
  svg.append(text(end + 20, height - 10, `${sum}${sum === cost ? "" : `, and not ${cost}`}`, "total"));
  return svg;
}

const wordOf = ({ operation, length }) => (length > 1 ? `${operation} ×${length}` : operation);

/** From the lock to the release, with the node's accesses; where both are at one slot, a stroke. */
function barOf(bar, list, x, y) {
  const left = x(bar.lock), right = x(bar.release);
  if (left === right) return [draw("path", { class: "stroke", d: `M${left} ${y - 4}V${y + 14}` })];
  const parts = [draw("rect", { class: "bar", x: left, y: y - 4, width: right - left, height: 18 })];
  list.forEach((access, at) => {
    if (access.path !== bar.node) return;
    parts.push(draw("rect", { class: "work", x: x(at) + 2, y: y - 2, width: x(at + 1) - x(at) - 4, height: 14 }));
    parts.push(draw("text", { class: "word", x: (x(at) + x(at + 1)) / 2, y: y + 9 }, wordOf(access)));
  });
  return parts;
}

function stepsDetails(name, steps) {
  const words = steps.map(([kind, what]) => make("li", {}, make("code", {}, `${kind} ${what}`)));
  const title = make("summary", {}, `The ${steps.length} steps of ${name}'s plan`);
  return make("details", {}, title, make("ol", { start: 0 }, ...words));
}

/** The flow, what each row adds to the bound, and a button that has the server's checker look at it. */
function certificate(name, list, slots, weights, { plan, flow, cost }) {
  const paths = list.map((access) => access.path);
  let bound = 0n;
  const rows = flow.map((row) => {
    const from = paths.indexOf(row.node), to = paths.lastIndexOf(row.node);
    const adds = from < 0 ? 0n : BigInt(row.last) * BigInt(slots[to + 1]) - BigInt(row.first) * BigInt(slots[from]);
    const how = from < 0 ? "0" : `${row.last} × ${slots[to + 1]} − ${row.first} × ${slots[from]} = ${adds}`;
    bound += adds;
    return [row.node, weights.get(row.node), row.above, row.held, row.first, row.last, row.own, how];
  });
  const heads = ["node", "weight", "above", "held", "first", "last", "own", "adds to the bound"];
  const sum = `${bound} ${String(bound) === String(cost) ? "=" : "isn't"} the cost ${cost}`;
  const told = `Check it: the certificate of ${name}`;
  const button = make("button", { type: "button", class: "asks", "aria-label": told }, "Check it");
  const verdict = make("span", { role: "status" });
  const check = JSON.stringify({ flow, plan }).slice(1, -1);
  button.addEventListener("click", async () => {
    verdict.textContent = await checked(`{"check":{"version":2,"list":${jsonOf(list)},${check}}}`);
  });
  return make("details", { open: "" }, make("summary", {}, `The certificate of ${name}: no legal plan costs less`),
    make("p", {}, "The amounts from above to own are a flow. It bounds what any legal plan costs with these weights,"
      + " and the bound is this plan's cost."),
    tableOf(`the certificate of ${name}`, heads, rows, { foot: ["total", "", "", "", "", "", "", sum] }),
    make("div", { class: "row" }, button, verdict));
}

async function checked(line) {
  try {
    const [reply] = await repliesTo([line]);
    if (reply.error) return `It is ${faultText(reply)}. The weights may have changed since it was planned.`;
    return `The server's checker accepts it: cost ${reply.cost}.`;
  } catch (error) {
    return error.message;
  }
}

// ---- the page

byId("follow").addEventListener("click", toggleFollowing);
byId("reweigh").addEventListener("click", reweigh);
for (const answer of ["lower", "keep"]) {
  byId(answer).addEventListener("click", () => byId("lowering").close(answer));
}
byId("only").addEventListener("click", () => {
  setOnly(!view.isOnlyChanged);
  showFromTop();
});
byId("by").addEventListener("change", showTree);
byId("filter").addEventListener("input", setFilter);
byId("filter").addEventListener("keydown", (event) => {
  if (event.key !== "Escape") return;
  byId("filter").value = "";
  setFilter();
});
byId("fold").addEventListener("click", () => setFolds(foldsFrom(1)));
byId("unfold").addEventListener("click", () => setFolds(new Set()));
byId("table").addEventListener("click", setOrder);
byId("table").addEventListener("keydown", onTableKey);
byId("table").addEventListener("focus", onTableFocus);
byId("nodes").addEventListener("click", onTableClick);
byId("box").addEventListener("scroll", () => requestAnimationFrame(drawRows));
addEventListener("resize", measure);
NARROW.addEventListener("change", showTree);
addEventListener("beforeprint", () => setPrinting(true));
addEventListener("afterprint", () => setPrinting(false));
byId("lists").addEventListener("input", () => {
  byId("written").textContent = "";
  showExample();
});
byId("example-plan").addEventListener("click", planExample);
byId("plan").addEventListener("click", () => answer(planned));
byId("batch").addEventListener("click", () => answer(batched));
byId("lists").addEventListener("keydown", (event) => {
  if (event.key === "Enter" && (event.ctrlKey || event.metaKey)) answer(planned);
});
follow();
</script>
</body>
</html>
"##;
