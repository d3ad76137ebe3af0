//! The second script of the page: the rows of a trace, and the way from the list to them and back.

pub(crate) const TRACE_SCRIPT: &str = r#"
'use strict';
// ---- the rows of a trace

let trace = null;
let total = 1;
let searched = '';
let zoom = [0, 1];
let matches = new Set();
const folded = new Set();

const share = (nanoseconds) => ((nanoseconds - zoom[0]) / (zoom[1] - zoom[0])) * 100;
const within = (percent) => Math.max(-1, Math.min(101, percent));
const hasChildren = (place) => trace.rows[place + 1]?.level > trace.rows[place].level;

// The place after all rows under that of a place.
const past = (place) => {
  let next = place + 1;
  while (next < trace.rows.length && trace.rows[next].level > trace.rows[place].level) next += 1;
  return next;
};

const parentOf = (place) => {
  let above = place - 1;
  while (above >= 0 && trace.rows[above].level >= trace.rows[place].level) above -= 1;
  return above;
};

const timeCell = (row) => {
  const time = make('div', 'time');
  const from = within(share(row.from));
  const bar = make('div', 'bar ' + colour(row.service) + (row.status === 'error' ? ' fault' : ''));
  bar.style.left = from + '%';
  bar.style.width = within(share(row.from + row.length)) - from + '%';
  time.append(bar);
  for (const event of row.events) {
    const mark = make('div', 'mark');
    mark.style.left = within(share(Number(BigInt(event.timeUnixNano) - trace.first))) + '%';
    time.append(mark);
  }
  return time;
};

const nameCell = (row, place) => {
  const cell = make('div', 'cell name');
  const fold = make('button', 'fold', hasChildren(place) ? (folded.has(place) ? '\u25b8' : '\u25be') : '');
  fold.tabIndex = -1;
  fold.setAttribute('aria-hidden', 'true');
  cell.style.paddingLeft = 6 + 12 * Math.min(row.level, 20) + 'px';
  cell.append(fold);
  if (row.level > 20) cell.append(make('span', 'soft', row.level + ' '));
  if (row.status === 'error') cell.append(make('span', 'fault', '! '));
  cell.append(make('span', '', row.name));
  if (trace.services.length > 1) cell.append(make('span', 'soft', ' @' + row.service));
  if (row.kind !== 'internal') cell.append(make('span', 'soft', ' ' + row.kind));
  if (folded.has(place)) cell.append(make('span', 'soft', ' +' + (past(place) - place - 1)));
  return cell;
};

const spanLine = (place) => {
  const row = trace.rows[place];
  const line = make('div', matches.has(place) ? 'found' : '');
  line.append(nameCell(row, place), make('div', 'cell long', duration(row.length)), timeCell(row));
  for (const cell of line.children) cell.setAttribute('role', 'gridcell');
  line.setAttribute('aria-level', row.level + 1);
  if (hasChildren(place)) line.setAttribute('aria-expanded', !folded.has(place));
  return line;
};

const visible = () => {
  const kept = [];
  for (let place = 0; place < trace.rows.length; place = folded.has(place) ? past(place) : place + 1) kept.push(place);
  return kept;
};

const refold = (place) => {
  const kept = visible();
  spans.show(kept, kept.indexOf(place));
  spans.moved();
};
const fold = (place, on) => {
  if (on && hasChildren(place)) folded.add(place);
  if (!on) folded.delete(place);
  refold(place);
};

// Chooses the row of a place, and unfolds what hides it.
const reveal = (place) => {
  for (let above = parentOf(place); above >= 0; above = parentOf(above)) folded.delete(above);
  refold(place);
};

// Ticks at round durations, as far as their labels have room before that of the end.
const ticks = () => {
  const made = [];
  const step = STEPS.find((it) => it > (zoom[1] - zoom[0]) / 5) ?? STEPS.at(-1);
  const first = Math.ceil(zoom[0] / step);
  for (let i = 0; i < 8 && share((first + i) * step) <= 80; i += 1) {
    const after = (first + i) * step;
    const tick = make('div', 'tick', duration(after));
    tick.style.left = share(after) + '%';
    made.push(tick);
  }
  return made;
};

const zoomTo = (from, to) => {
  zoom = [Math.max(0, Math.min(from, total - 1)), Math.max(1, Math.min(total, to))];
  if (zoom[1] - zoom[0] < 1) zoom[1] = zoom[0] + 1;
  at('axis').replaceChildren(...ticks(), make('div', 'tick end', duration(Math.floor(zoom[1]))));
  at('whole').disabled = zoom[0] === 0 && zoom[1] === total;
  spans.paint();
};
const zoomBy = (factor) => {
  const row = trace.rows[spans.items[spans.chosen]];
  const inside = row && row.from < zoom[1] && row.from + row.length > zoom[0];
  const seen = inside ? [Math.max(row.from, zoom[0]), Math.min(row.from + row.length, zoom[1])] : zoom;
  const middle = (seen[0] + seen[1]) / 2;
  const half = Math.min(total, (zoom[1] - zoom[0]) * factor) / 2;
  const from = Math.max(0, Math.min(total - 2 * half, middle - half));
  zoomTo(from, from + 2 * half);
};
const pan = (part) => {
  const by = Math.max(-zoom[0], Math.min(total - zoom[1], (zoom[1] - zoom[0]) * part));
  zoomTo(zoom[0] + by, zoom[1] + by);
};

const next = (step) => {
  const found = [...matches].sort((a, b) => a - b);
  const here = spans.items[spans.chosen] ?? -1;
  const later = step > 0 ? found.find((it) => it > here) : found.findLast((it) => it < here);
  if (found.length) reveal(later ?? found.at(step > 0 ? 0 : -1));
};

const close = () => {
  if (!at('details').hidden) at('details').hidden = true;
  else if (!at('whole').disabled) zoomTo(0, total);
  else location.hash = '';
  at('rows').focus();
};

const ACTIONS = {
  Enter: () => { at('details').hidden = false; describe(); },
  Escape: close,
  '+': () => zoomBy(0.5),
  '=': () => zoomBy(0.5),
  '-': () => zoomBy(2),
  0: () => zoomTo(0, total),
  n: () => next(1),
  N: () => next(-1),
};
const onSpan = {
  ArrowRight: (place) => (folded.has(place) ? fold(place, false) : hasChildren(place) && reveal(place + 1)),
  ArrowLeft: (place) => {
    if (hasChildren(place) && !folded.has(place)) fold(place, true);
    else if (parentOf(place) >= 0) reveal(parentOf(place));
  },
  z: (place) => zoomTo(trace.rows[place].from, trace.rows[place].from + trace.rows[place].length),
};

const spans = pane(at('rows'), spanLine, (key, shift) => {
  const place = spans.items[spans.chosen];
  if (shift && key === 'ArrowLeft') pan(-0.25);
  else if (shift && key === 'ArrowRight') pan(0.25);
  else if (ACTIONS[key]) ACTIONS[key]();
  else if (onSpan[key] && place !== undefined) onSpan[key](place);
  else return false;
  return true;
});
spans.moved = () => { if (!at('details').hidden) describe(); };

// ---- what a span says

const block = (head, ...parts) => [make('h3', '', head), ...parts];
const texts = (attributes) => {
  const pre = make('pre');
  pre.textContent = attributes.split('\n').slice(1).map(shown).join('\n');
  return pre;
};
const facts = (pairs) => {
  const made = make('dl');
  for (const [name, value] of pairs) if (value !== '') made.append(make('dt', '', name), make('dd', '', value));
  return made;
};

const linkParts = (link) => {
  const parts = [facts([['trace', link.traceId], ['span', link.spanId]]), texts(link.attributes)];
  if (traces.some((it) => it.traceId === link.traceId)) {
    const open = make('button', '', 'Open trace');
    open.addEventListener('click', () => { location.hash = link.traceId; });
    parts.push(open);
  }
  return parts;
};

const describe = () => {
  const row = trace.rows[spans.items[spans.chosen]];
  if (!row) return;
  const since = (nanoseconds) => '+' + duration(Number(BigInt(nanoseconds) - trace.first));
  const parts = [make('h2', '', row.name), facts([
    ['service', row.service], ['kind', row.kind], ['status', row.status], ['fault', row.description],
    ['start', moment(row.startTimeUnixNano) + ' (' + row.startTimeUnixNano + ')'],
    ['end', moment(row.endTimeUnixNano) + ' (' + row.endTimeUnixNano + ')'],
    ['offset', '+' + duration(row.from)], ['length', duration(row.length)],
    ['span', row.spanId], ['parent', row.parentSpanId], ['trace', trace.traceId]])];
  if (row.attributes) parts.push(...block('Attributes', texts(row.attributes)));
  if (row.events.length) parts.push(make('h3', '', 'Events'));
  for (const it of row.events) parts.push(facts([[since(it.timeUnixNano), it.name]]), texts(it.attributes));
  if (row.links.length) parts.push(make('h3', '', 'Links'));
  for (const it of row.links) parts.push(...linkParts(it));
  if (row.resource) parts.push(...block('Resource', texts(row.resource)));
  at('said').replaceChildren(...parts);
  at('details').scrollTop = 0;
};

// ---- from one to the other

// The moments of a trace, from its first on, where a span without a start is taken to start when it ends; and the
// resource of a row that does not say it, which is that before it.
const prepare = () => {
  trace.first = BigInt(trace.startTimeUnixNano);
  let resource = '';
  for (const row of trace.rows) {
    row.resource ??= resource;
    resource = row.resource;
    const start = BigInt(row.startTimeUnixNano) || BigInt(row.endTimeUnixNano);
    row.from = Number(start - trace.first);
    row.length = Math.max(0, Number(BigInt(row.endTimeUnixNano) - start));
  }
};

const mark = () => {
  const words = asked();
  const found = words.length ? trace.rows.flatMap((row, place) => (has(lowered(row), words) ? [place] : [])) : [];
  matches = new Set(found);
  at('found').textContent = words.length ? found.length + ' found' : trace.spans + ' spans';
  spans.paint();
};

const turnTo = (found) => {
  if (found && !trace) searched = at('search').value;
  at('search').value = found ? '' : searched;
  trace = found;
  for (const id of ['trace', 'back']) at(id).hidden = !found;
  at('list').hidden = !!found;
  at('details').hidden = true;
  at('title').replaceChildren(make('bdi', '', found ? found.service + ' ' + found.name : 'Traces'));
  document.title = at('title').textContent;
};

const openTrace = (found) => {
  turnTo(found);
  at('title').append(make('small', '', ' ' + moment(trace.startTimeUnixNano) + ', ' + duration(trace.durationNano)
    + (trace.errors ? ', errors: ' + trace.errors : '') + ', ' + trace.traceId));
  if (trace.first === undefined) prepare();
  folded.clear();
  matches.clear();
  total = Math.max(1, trace.durationNano);
  zoom = [0, total];
  spans.show(visible(), 0);
  mark();
  zoomTo(0, total);
  at('rows').focus();
};

const openList = () => {
  turnTo(null);
  listTraces();
  at('all').focus();
};

const follow = () => {
  const found = traces.find((it) => it.traceId === location.hash.slice(1));
  if (found) openTrace(found);
  else openList();
};

const lineOf = (event) => Number(event.target.closest('.line')?.dataset.place ?? -1);

at('all').addEventListener('click', (event) => {
  if (lineOf(event) >= 0) location.hash = list.items[lineOf(event)].traceId;
});

at('rows').addEventListener('click', (event) => {
  const line = lineOf(event);
  if (line < 0 || drag?.done) return;
  const place = spans.items[line];
  if (event.target.closest('.fold') && hasChildren(place)) fold(place, !folded.has(place));
  else {
    at('details').hidden = false;
    spans.choose(line);
    describe();
  }
  at('rows').focus({ preventScroll: true });
});

// An interval that is drawn over the times is zoomed into.
let drag = null;
at('table').addEventListener('pointerdown', (event) => {
  const time = event.target.closest('.time');
  drag = time && event.button === 0 ? { box: time.getBoundingClientRect(), from: event.clientX } : null;
});
addEventListener('pointermove', (event) => {
  if (!drag || drag.done) return;
  const x = Math.max(drag.box.left, Math.min(drag.box.right, event.clientX));
  drag.ends = [Math.min(drag.from, x), Math.max(drag.from, x)];
  at('drag').hidden = drag.ends[1] - drag.ends[0] < 4;
  at('drag').style.left = drag.ends[0] - at('table').getBoundingClientRect().left + 'px';
  at('drag').style.width = drag.ends[1] - drag.ends[0] + 'px';
});
addEventListener('pointerup', () => {
  if (!drag || drag.done || at('drag').hidden) {
    if (!drag?.done) drag = null;
    return;
  }
  const moments = drag.ends.map((x) => zoom[0] + ((x - drag.box.left) / drag.box.width) * (zoom[1] - zoom[0]));
  drag.done = true;
  at('drag').hidden = true;
  zoomTo(...moments);
});

addEventListener('pointercancel', () => {
  drag = null;
  at('drag').hidden = true;
});

at('back').addEventListener('click', () => { location.hash = ''; });
at('whole').addEventListener('click', () => {
  zoomTo(0, total);
  at('rows').focus();
});
at('closed').addEventListener('click', () => close());
at('search').addEventListener('input', () => (trace ? mark() : listTraces()));
at('search').addEventListener('keydown', (event) => {
  if (event.key !== 'Enter' && event.key !== 'Escape') return;
  event.preventDefault();
  if (event.key === 'Escape') {
    at('search').value = '';
    at('search').dispatchEvent(new Event('input'));
  }
  at(trace ? 'rows' : 'all').focus();
  if (event.key === 'Enter' && trace) next(1);
  if (event.key === 'Enter' && !trace && list.items.length) list.choose(0);
});
addEventListener('keydown', (event) => {
  if (event.key === '/' && document.activeElement !== at('search')) {
    event.preventDefault();
    at('search').focus();
  }
});
addEventListener('resize', () => (trace ? spans.paint() : list.paint()));
for (const [name, whole] of [['beforeprint', true], ['afterprint', false]]) {
  addEventListener(name, () => {
    for (const it of [list, spans]) it.whole = whole;
    (trace ? spans : list).paint();
  });
}
addEventListener('hashchange', follow);
for (const it of traces) it.services = [...new Set(it.rows.map((row) => row.service))];
follow();
"#;
