// The page: one document without any other file, which redraws itself each second from `/status.json` and
// `/picture.svg`. It has no double quotes and no backslashes, so that it stands here as it is sent.

/// The page at `/`.
pub const PAGE: &str = "\
<!DOCTYPE html>
<html lang='en'>
<head>
<meta charset='utf-8'>
<meta name='viewport' content='width=device-width'>
<title>autoraid</title>
<link rel='icon' href='data:,'>
<style>
:root { color-scheme: light dark }
:root { --ink: #222; --dim: #666; --line: #ccc; --card: #fff; --page: #f3f3f1; --bad: #b03a00; --link: #0060a0 }
:root { --good-bar: #1a7f37; --warn-bar: #b87a00; --fail-bar: #c01c28 }
@media (prefers-color-scheme: dark) {
  :root { --ink: #ddd; --dim: #999; --line: #444; --card: #1b1b1b; --page: #111; --bad: #ff9a66; --link: #7cc4ff }
  :root { --good-bar: #3fb950; --warn-bar: #e3a008; --fail-bar: #ff6b6b }
}
* { box-sizing: border-box }
body { margin: 0; padding: 12px; color: var(--ink); background: var(--page); font: 14px/1.4 sans-serif }
a { color: var(--link) }
h1 { margin: 0; font-size: 18px; overflow-wrap: anywhere }
h2 { margin: 0 0 4px; font-size: 14px }
header { display: flex; flex-wrap: wrap; gap: 4px 24px; align-items: center; margin: 0 0 12px; padding: 6px 12px }
header { border-left: 8px solid var(--bar, var(--dim)); background: var(--card); font-size: 18px }
header.whole { --bar: var(--good-bar) }
header.out, header.rebuilding, header.alone { --bar: var(--warn-bar); border-left-style: dashed }
header.broken, header.failing, header.silent { --bar: var(--fail-bar); border-left-style: double }
header p { margin: 0 }
#health { flex: 1 1 240px }
#health b { margin-right: 8px; color: var(--bar) }
#used { font-size: 14px }
meter { width: 120px; vertical-align: middle }
#store { flex-basis: 100%; color: var(--bad); font-weight: bold }
nav { display: flex; gap: 12px; font-size: 14px }
main { display: grid; grid-template-columns: minmax(0, 1fr) 380px; gap: 12px; align-items: start }
section { padding: 10px 12px; background: var(--card); border: 1px solid var(--line) }
.tables { display: grid; grid-template-columns: minmax(0, 1fr); min-width: 0 }
.tables > section { margin-bottom: 12px; break-inside: avoid }
#graphs { display: grid; grid-template-columns: repeat(3, minmax(0, 1fr)); gap: 24px; grid-column: 1 / -1 }
main > #graphs { padding: 10px 12px }
figure { margin: 0 }
figcaption b { display: block }
figcaption span, thead th, time { color: var(--dim) }
figure svg { display: block; width: 100%; height: 64px; border-bottom: 1px solid var(--line) }
figure path { fill: none; stroke: var(--link); stroke-width: 1.5; vector-effect: non-scaling-stroke }
main > section { padding: 10px 6px }
#picture { overflow-x: auto }
.scrolls { overflow-x: auto }
table { width: 100%; border-collapse: collapse; font-size: 13px; font-variant-numeric: tabular-nums }
th, td { padding: 1px 0 1px 8px; font-weight: normal; text-align: right; white-space: nowrap }
th:first-child, td:first-child { padding-left: 0; text-align: left }
#array td { white-space: normal }
#events { max-height: 240px; margin: 0; padding: 0; overflow-y: auto; list-style: none }
time { display: inline-block; min-width: 84px }
@media (min-width: 1700px) {
  main { grid-template-columns: minmax(0, 1fr) 772px }
  .tables { display: block; columns: 2; column-gap: 12px }
}
@media (max-width: 1100px) {
  main { grid-template-columns: minmax(0, 1fr) }
  .tables { display: block; columns: 320px; column-gap: 12px }
}
@media (max-width: 600px) {
  body { padding: 8px }
  #graphs { grid-template-columns: minmax(0, 1fr) }
  .tables { columns: auto }
}
</style>
</head>
<body>
<header id='top'>
<h1 id='name' hidden></h1>
<p id='health' role='status'>loading</p>
<p id='used'></p>
<nav><a href='metrics'>metrics</a><a href='status.json'>status as JSON</a></nav>
<p id='store' role='status' hidden></p>
</header>
<main>
<section id='graphs'></section>
<section><div id='picture'></div></section>
<div class='tables'>
<section><h2>Hosts</h2><div class='scrolls'><table>
<thead><tr><th>host</th><th>session</th><th>ops/s</th><th>read/s</th><th>written/s</th></tr></thead>
<tbody id='hosts'></tbody></table></div></section>
<section id='sessions' hidden><h2>Sessions</h2><div class='scrolls'><table>
<thead><tr><th>initiator</th><th>host</th><th>port</th></tr></thead>
<tbody id='initiators'></tbody></table></div></section>
<section><h2>Units</h2><div class='scrolls'><table>
<thead><tr><th>unit</th><th>size</th><th>written</th><th>cached</th><th>serial number</th></tr></thead>
<tbody id='units'></tbody></table></div></section>
<section><h2>Disks</h2><div class='scrolls'><table>
<thead><tr><th>disk</th><th>state</th><th>size</th><th>used</th><th>accesses</th><th>errors</th></tr></thead>
<tbody id='disks'></tbody></table></div></section>
<section><h2>Array</h2><table><tbody id='array'></tbody></table></section>
<section><h2>Events</h2><ol id='events'></ol></section>
</div>
</main>
<script>
'use strict';
const at = id => document.getElementById(id);
const count = n => n.toLocaleString('en');
const span = s =>
  s < 90 ? `${Math.round(s)} s` : s < 5400 ? `${Math.round(s / 60)} min` : `${Math.round(s / 3600)} h`;

function size(n) {
  let unit = 0;
  while (n >= 1000 && unit < 4) { n /= 1000; unit += 1; }
  return `${unit && n < 10 ? n.toFixed(1) : Math.round(n)} ${['B', 'kB', 'MB', 'GB', 'TB'][unit]}`;
}

// An element with this text, which is never read as HTML.
const element = (name, text) => Object.assign(document.createElement(name), { textContent: text });

// Shows rows of texts in the body of a table.
function rows(body, texts) {
  body.replaceChildren(...texts.map(cells => {
    const row = document.createElement('tr');
    row.append(...cells.map(text => element('td', text)));
    return row;
  }));
}

// What is left of a rebuild, where that can be told.
function left(disks) {
  const rebuilt = disks.find(disk => disk.seconds_left !== null);
  return rebuilt ? `, about ${span(rebuilt.seconds_left)} left` : '';
}

// Which disks an array has lost that has failed.
const lost = disks => disks ? `disks ${disks.join(' and ')} failed` : 'two disks were missing at once';

// The state in a word, for the top line and the title, and what it means.
const STATES = {
  whole: 'healthy', out: 'degraded', rebuilding: 'rebuilding', broken: 'failed', silent: 'no answer',
  alone: 'store degraded', failing: 'store failed',
};

// The state of the array and its store: the worse one of both.
function worse(health, store) {
  if (health.state === 'broken' || !store) return health.state;
  if (store.state === 'failing' || store.state === 'given_up') return 'failing';
  return health.state === 'whole' && store.state === 'degraded' ? 'alone' : health.state;
}

function words(status) {
  const { health, disks, extents, lost_disks } = status, rest = left(status.inventory.disks);
  switch (health.state) {
    case 'whole': return `all ${disks} disks are present`;
    case 'out': return `disk ${health.disk} failed, and is not replaced`;
    case 'rebuilding': return `disk ${health.disk} failed, rebuilding: ${health.done} of ${extents} extents${rest}`;
    default: return `${lost(lost_disks)}: the data are lost`;
  }
}

// The array's name as it was last seen, which stays while the array doesn't answer.
let named = '';
function head(state, text) {
  at('top').className = state;
  at('name').textContent = named;
  at('name').hidden = !named;
  at('health').replaceChildren(element('b', STATES[state]), text);
  document.title = `${STATES[state]} - ${named || 'autoraid'}`;
}

// What is wrong with the store, if it is.
function fault(store) {
  switch (store && store.state) {
    case 'degraded': return 'one of the two copies of the store is lost';
    case 'failing': return `the store can't be written: no WRITE is acknowledged until it can`;
    case 'given_up': return 'the store is given up: no WRITE is acknowledged until a new start';
    default: return '';
  }
}

// How many bytes units have of those that they may have: a unit takes whole blocks.
function used(status) {
  const block = status.block_bytes, given = status.inventory.units.reduce((sum, unit) => sum + unit.blocks, 0);
  return { given: given * block, all: (given + status.room_blocks) * block };
}

function showUsed(status) {
  const { given, all } = used(status), meter = document.createElement('meter');
  Object.assign(meter, { max: all || 1, value: given });
  at('used').replaceChildren(`${size(given)} of ${size(all)} given to units `, meter);
}

function stateOf(status, { state, extents_rebuilt }) {
  if (status.health.state === 'broken' && !status.lost_disks) return 'array failed';
  return extents_rebuilt === null ? state : `${state} ${extents_rebuilt} of ${status.extents}`;
}

function showDisks(status) {
  const extent = status.extent_rows * status.block_bytes;
  rows(at('disks'), status.inventory.disks.map(disk => [
    disk.disk, stateOf(status, disk), size(status.extents * extent), size(disk.extents_used * extent),
    count(disk.accesses), count(disk.errors),
  ]));
}

function showUnits(status) {
  const blocks = n => size(n * status.block_bytes);
  rows(at('units'), status.inventory.units.map(unit => [
    `${unit.host}:${unit.lun}`, size(unit.sectors * 512), blocks(unit.written_blocks), blocks(unit.cached_blocks),
    unit.serial_number || 'none',
  ]));
}

function showSessions({ inventory }) {
  const byFrames = inventory.host_sessions.filter(({ peer_port }) => peer_port !== null);
  const sessions = [...byFrames, ...inventory.iscsi_sessions];
  at('sessions').hidden = !sessions.length;
  rows(at('initiators'), sessions.map(({ initiator, host, peer_port }) =>
    [initiator || 'frames', host === null ? 'discovery' : host, peer_port === null ? '' : peer_port]));
}

// What has changed since the last sample. A service that was restarted has counted from 0.
let before = null;
const since = (name, now, was) => was && now[name] >= was[name] ? now[name] - was[name] : 0;
function rates(status, now) {
  return status.hosts.map((host, number) => {
    const seconds = before && now - before.now, was = before && before.hosts[number];
    const rate = name => was ? since(name, host, was) / seconds : 0;
    const is = status.sessions.hosts[number] ? 'yes' : 'no';
    return [number, is, count(Math.round(rate('commands'))), size(rate('read_bytes')), size(rate('written_bytes'))];
  });
}

// The samples of the last ten minutes: those that the service has taken before the page was opened, and then one for
// each second.
const SAMPLES = 600;
const samples = [];

function recall(status, now) {
  for (const { seconds, spell, commands, bytes, slowest } of [...status.samples].reverse())
    samples.push({
      now: now - (status.uptime_seconds - seconds),
      commands: commands / spell,
      bytes: bytes / spell,
      slowest: slowest === null ? -1 : slowest,
    });
}

// The place of the slowest command's bucket among those of all operations, or -1 without a command.
function slowest(latencies, was) {
  const grown = place => Object.keys(latencies).some(name =>
    latencies[name].buckets[place] > was[name].buckets[place]);
  for (let place = latencies.other.buckets.length - 1; place >= 0; place -= 1) if (grown(place)) return place;
  return -1;
}

function sample(status, now) {
  if (!before) { recall(status, now); return; }
  const seconds = now - before.now;
  const sum = name => status.hosts.reduce((sum, host, number) =>
    sum + since(name, host, before.hosts[number]), 0) / seconds;
  const bytes = sum('read_bytes') + sum('written_bytes');
  samples.push({ now, commands: sum('commands'), bytes, slowest: slowest(status.latencies, before.latencies) });
  while (samples.length > SAMPLES || now - samples[0].now > SAMPLES) samples.shift();
}

// A bound of times in microseconds, or more than the longest.
function within(micros) {
  if (micros === undefined) return 'over 10 s';
  return `up to ${micros < 1000 ? `${micros} us` : micros < 1e6 ? `${micros / 1000} ms` : `${micros / 1e6} s`}`;
}

// A graph of a number of each sample, the newest on the right.
function graph(title, value, shown, most) {
  const numbers = samples.map(value), high = most || Math.max(1e-9, ...numbers);
  const last = samples.length ? samples.at(-1).now : 0;
  const points = samples.map((sample, place) => {
    const x = SAMPLES - (last - sample.now), y = 98 - 96 * Math.max(0, numbers[place]) / high;
    return `${x.toFixed(1)} ${y.toFixed(1)}`;
  });
  const figure = document.createElement('figure'), caption = document.createElement('figcaption');
  caption.append(element('b', title), element('span', numbers.length ?
    `now ${shown(numbers.at(-1))}, highest of ten minutes ${shown(Math.max(...numbers))}` : 'no sample yet'));
  figure.append(caption);
  figure.insertAdjacentHTML('beforeend', `<svg viewBox='0 0 600 100' preserveAspectRatio='none' role='img'>
<path d='${points.length ? `M${points.join('L')}` : ''}'/></svg>`);
  return figure;
}

function showGraphs(bounds) {
  const time = place => place < 0 ? 'none' : within(bounds[place]);
  at('graphs').replaceChildren(
    graph('commands/s', sample => sample.commands, n => count(Math.round(n))),
    graph('bytes/s', sample => sample.bytes, size),
    graph('slowest command', sample => sample.slowest, time, bounds.length),
  );
}

function happened(event) {
  const { kind, disk, host, lun } = event;
  switch (kind) {
    case 'disk_failed': return `disk ${disk} failed`;
    case 'disk_replaced': return `disk ${disk} replaced`;
    case 'disk_rebuilt': return `disk ${disk} rebuilt`;
    case 'disk_added': return `disk ${disk} added`;
    case 'array_failed': return 'array failed: two disks missing at once';
    case 'unit_made': return `unit ${host} ${lun} made`;
    case 'unit_grown': return `unit ${host} ${lun} grown`;
    case 'unit_dropped': return `unit ${host} ${lun} dropped`;
    default: return kind;
  }
}

function showArray(status) {
  const { steps, counters, room_blocks, refused_logins, store } = status, { usage } = status.inventory;
  rows(at('array'), [
    ['room', `${count(room_blocks)} blocks, ${size(room_blocks * status.block_bytes)}`],
    ...['mirrored', 'parity', 'unwritten'].map(name => [name, size(usage[`${name}_sectors`] * 512)]),
    ['free groups', count(status.free_groups)],
    ['spare disks', status.spares],
    ['discovery sessions', status.sessions.discovery],
    ['cache', `${count(status.cached_blocks)} blocks`],
    ['history', `${count(status.history_entries)} entries, ${size(status.history_bytes)}`],
    ...store ? [
      ['store', `${size(store.log_bytes)}, ${size(store.waiting_bytes)} waiting`],
      ['commits', `${count(store.commits)}, ${count(store.checkpoints)} checkpoints`],
    ] : [],
    ...Object.keys(steps).map(kind => [`${kind} steps`, count(steps[kind])]),
    ...Object.keys(counters).map(kind => [kind.replace('_', ' '), count(counters[kind])]),
    ...Object.keys(refused_logins).map(door => [`refused logins, ${door}`, count(refused_logins[door])]),
    ['running for', span(status.uptime_seconds)],
    ['version', status.version],
  ]);
}

function showEvents(status) {
  at('events').replaceChildren(...status.events.map(event => {
    const line = document.createElement('li');
    line.append(element('time', `${span(status.uptime_seconds - event.seconds)} ago`), happened(event));
    return line;
  }));
}

function show(status, now) {
  named = status.name;
  head(worse(status.health, status.store), words(status));
  at('store').textContent = fault(status.store);
  at('store').hidden = !fault(status.store);
  showUsed(status);
  rows(at('hosts'), rates(status, now));
  sample(status, now);
  before = { hosts: status.hosts, latencies: status.latencies, now };
  showGraphs(status.latency_bounds_micros);
  showSessions(status);
  showUnits(status);
  showDisks(status);
  showArray(status);
  showEvents(status);
}

// The extents of a picture by disk, each as its shapes: a rectangle of its class, and what is drawn over it.
function cells(svg) {
  const disks = [];
  for (const shape of svg.querySelector('g').children) {
    if (shape.matches('.disk')) disks.push([]);
    else if (shape.matches('rect:not(.missing)')) disks.at(-1).push([shape]);
    else if (disks.at(-1).length) disks.at(-1).at(-1).push(shape);
  }
  return disks;
}

// Draws a run of extents that look alike once, where they have no words, so that the picture fits the window.
const TOP = 124;
function fold(svg) {
  const disks = cells(svg), all = disks.length ? disks[0].length : 0;
  if (all <= 16) return;
  const look = extent => disks.map(disk => disk[extent].map(shape =>
    (shape.getAttribute('class') || shape.getAttribute('viewBox')) + shape.innerHTML)).join();
  const folds = [];
  for (let extent = 0, last = null; extent < all; extent += 1, last = folds.at(-1).look) {
    const now = look(extent);
    if (now !== last) folds.push({ first: extent, look: now });
    else for (const disk of disks) for (const shape of disk[extent]) shape.remove();
    folds.at(-1).end = extent;
  }
  const pitch = Math.max(3, Math.min(36, Math.floor(900 / folds.length)));
  if (pitch > 5) svg.querySelector('g').setAttribute('stroke-width', 1);
  const labels = svg.querySelectorAll('.number'), label = labels[0];
  for (const old of labels) old.remove();
  folds.forEach((fold, line) => {
    const y = TOP + line * pitch, high = pitch > 5 ? pitch - 2 : pitch;
    for (const disk of disks) for (const shape of disk[fold.first]) {
      const bar = shape.matches('svg') && pitch > 5 ? high / 4 : 0;
      shape.setAttribute('y', y + bar);
      shape.setAttribute('height', high - 2 * bar);
    }
    if (line % Math.ceil(12 / pitch)) return;
    const text = svg.insertBefore(label.cloneNode(), svg.querySelector('g'));
    text.setAttribute('y', y + pitch / 2 + 4);
    text.textContent = fold.first < fold.end ? `${fold.first}..${fold.end}` : `${fold.first}`;
    if (text.textContent.length > 8) text.setAttribute('textLength', 50);
  });
  const legend = Math.max(...[...svg.querySelectorAll(':scope > rect[y]')].map(shape => +shape.getAttribute('y')));
  const height = Math.max(TOP + folds.length * pitch, legend + 15) + 24, width = svg.getAttribute('width');
  svg.setAttribute('viewBox', `0 0 ${width} ${height}`);
  svg.setAttribute('height', height);
  svg.querySelector(':scope > rect').setAttribute('height', height);
}

// Sets the disks in rows, and the legend below them, where the window is narrower than the picture.
const LEFT = 64, DISK = 92, TITLES = 82;
function wrap(svg, room) {
  const disks = cells(svg), shapes = [...svg.querySelector('g').children], legend = [...svg.querySelectorAll('g ~ *')];
  if (svg.getAttribute('width') <= room) return;
  const most = Math.max(1, Math.floor((room - LEFT) / DISK)), lines = Math.ceil(disks.length / most);
  const each = Math.ceil(disks.length / lines), number = (shape, name) => +shape.getAttribute(name);
  const end = Math.max(...shapes.map(shape => number(shape, 'y') + number(shape, 'height')));
  const step = end + 24 - TITLES, bottom = TITLES + lines * step;
  const move = (shape, x, y) => {
    shape.setAttribute('x', number(shape, 'x') + x);
    shape.setAttribute('y', number(shape, 'y') + y);
    return shape;
  };
  for (const label of svg.querySelectorAll('.number')) for (let line = 1; line < lines; line += 1)
    svg.insertBefore(move(label.cloneNode(true), 0, line * step), svg.querySelector('g'));
  for (const shape of shapes) {
    const line = Math.floor((number(shape, 'x') - LEFT) / DISK / each);
    move(shape, -line * each * DISK, line * step);
  }
  const first = legend[0], x = 24 - number(first, 'x'), y = bottom + 16 - number(first, 'y');
  for (const shape of legend) move(shape, x, y);
  const width = Math.max(LEFT + each * DISK, 340), height = Math.max(...legend.map(shape => number(shape, 'y'))) + 39;
  svg.setAttribute('viewBox', `0 0 ${width} ${height}`);
  for (const sheet of [svg, svg.querySelector(':scope > rect')]) {
    sheet.setAttribute('width', width);
    sheet.setAttribute('height', height);
  }
}

// Parity differs from mirroring by stripes, too, for whoever sees no colours. A bar has an outline, so that units of
// the darkest and the lightest colours are visible in both schemes.
const STRIPES = `<pattern id='stripes' width='6' height='6' patternUnits='userSpaceOnUse'>
<rect class='under' width='6' height='6'/><rect class='stripe' width='1' height='6'/></pattern>`;
const STYLE = `.parity { fill: url(#stripes) }
.under { fill: #FBF1C0 } .stripe { fill: #BFA11C }
.bar { fill: none; stroke: #808080; stroke-width: 1 }
.small { font-size: 11px }
:host > svg { display: block; margin: auto }
@media (prefers-color-scheme: dark) {
  text { fill: #dddddd } .number { fill: #999999 } .down { fill: #ff9a66 }
  .small { stroke: #1b1b1b }
  .ground, .free { fill: #1b1b1b }
  .mirrored { fill: #17384d }
  .under { fill: #3a3410 } .stripe { fill: #8a7414 }
  .loose { fill: #2b2b2b }
  .missing { stroke: #ff9a66 } #missing rect { fill: #ff9a66 }
}`;

// Draws the outlines of the bars of units, and of their colours in the legend.
function outline(svg) {
  svg.querySelector(':scope > rect').setAttribute('class', 'ground');
  const bars = [...svg.querySelectorAll('g > svg, :scope > rect[y][fill]')];
  for (const bar of bars.filter(bar => bar.matches('rect') || bar.children.length)) {
    const frame = svg.insertBefore(svg.querySelector('rect').cloneNode(), null);
    frame.removeAttribute('fill');
    frame.setAttribute('class', 'bar');
    for (const name of ['x', 'y', 'width', 'height']) frame.setAttribute(name, bar.getAttribute(name));
  }
}

let drawn = null;
addEventListener('resize', () => { drawn = null; });
const shadow = at('picture').attachShadow({ mode: 'open' });
function draw(text) {
  if (text === drawn) return;
  drawn = text;
  const svg = new DOMParser().parseFromString(text, 'image/svg+xml').documentElement;
  fold(svg);
  wrap(svg, at('picture').clientWidth);
  outline(svg);
  svg.querySelector('defs').insertAdjacentHTML('beforeend', STRIPES);
  svg.querySelector('style').append(STYLE);
  shadow.replaceChildren(svg);
}

async function get(path) {
  const reply = await fetch(path);
  if (!reply.ok) throw new Error(`${path}: ${reply.status}`);
  return reply;
}

async function redraw() {
  try {
    const [status, picture] = await Promise.all([get('status.json'), get('picture.svg')]);
    show(await status.json(), performance.now() / 1000);
    draw(await picture.text());
  } catch (error) {
    head('silent', `no answer from the array: ${error.message}`);
  }
  setTimeout(redraw, 1000);
}
redraw();
</script>
</body>
</html>
";
