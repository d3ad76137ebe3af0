//! The first script of the page: texts, lists of lines, and the list of traces. All that it shows it sets as text.

pub(crate) const LIST_SCRIPT: &str = r#"
'use strict';
const LINE = 24;
const at = (id) => document.getElementById(id);
const traces = JSON.parse(at('traces').textContent);

// ---- texts

const HIDDEN = /[\u0000-\u001f\u007f-\u009f\u061c\u180e\u200b-\u200f\u2028-\u202e\u2060-\u206f\ufeff]/g;
const shown = (text) => text.replace(HIDDEN, (c) => '\\u{' + c.codePointAt(0).toString(16) + '}');

const make = (tag, name, text) => {
  const made = document.createElement(tag);
  if (name) made.className = name;
  if (text !== undefined) made.textContent = shown(String(text));
  return made;
};

const UNITS = [[86400e9, 'd', 3600e9, 'h'], [3600e9, 'h', 60e9, 'm'], [60e9, 'm', 1e9, 's']];
const PARTS = [[1e9, 's'], [1e6, 'ms'], [1e3, 'us']];

// Round durations, from the shortest on.
const COUNTS = [1, 2, 5, 10, 20, 50, 100, 200, 500];
const SIXTIETHS = [1, 2, 5, 10, 20, 30];
const ROUND = [[1, COUNTS], [1e3, COUNTS], [1e6, COUNTS], [1e9, SIXTIETHS], [60e9, SIXTIETHS], [3600e9, [1, 2, 6, 12]],
  [86400e9, [1, 2, 5, 10, 20, 50, 100, 200]], [31536000e9, COUNTS]];
const STEPS = ROUND.flatMap(([unit, counts]) => counts.map((count) => count * unit));

// Nanoseconds in the unit that fits, cut to four digits.
const duration = (count) => {
  for (const [size, unit, part, letter] of UNITS) {
    const rest = Math.floor((count % size) / part);
    if (count >= size) return Math.floor(count / size) + unit + (rest ? ' ' + rest + letter : '');
  }
  for (const [size, unit] of PARTS) {
    const step = Math.max(1, size / 10 ** (4 - String(Math.floor(count / size)).length));
    if (count >= size) return (count - (count % step)) / size + unit;
  }
  return count + 'ns';
};

const moment = (nanoseconds) =>
  new Date(Number(BigInt(nanoseconds) / 1000000n)).toISOString().replace('T', ' ').replace('Z', ' UTC');

const colours = new Map();
const colour = (service) => {
  if (!colours.has(service)) {
    colours.set(service, 's' + (new TextEncoder().encode(service).reduce((sum, it) => sum + it, 0) % 8));
  }
  return colours.get(service);
};

// ---- lists of lines, of which those in sight stand in the page

const pane = (box, draw, onKey) => {
  const inner = make('div', 'inner');
  const it = { items: [], chosen: -1, whole: false };
  inner.setAttribute('role', 'presentation');
  box.append(inner);

  it.paint = () => {
    const from = it.whole ? 0 : Math.max(0, Math.floor(box.scrollTop / LINE) - 8);
    const last = it.whole ? it.items.length : Math.ceil((box.scrollTop + box.clientHeight) / LINE) + 8;
    const drawn = it.items.slice(from, last).map((item, i) => {
      const line = draw(item);
      const place = from + i;
      line.classList.add('line');
      line.classList.toggle('chosen', place === it.chosen);
      line.id = box.id + place;
      line.dataset.place = place;
      line.style.top = place * LINE + 'px';
      line.setAttribute('role', 'row');
      line.setAttribute('aria-rowindex', place + 1);
      line.setAttribute('aria-selected', place === it.chosen);
      return line;
    });
    inner.style.height = it.items.length * LINE + 'px';
    inner.replaceChildren(...drawn);
    box.setAttribute('aria-rowcount', it.items.length);
    if (it.chosen >= 0) box.setAttribute('aria-activedescendant', box.id + it.chosen);
    else box.removeAttribute('aria-activedescendant');
  };

  it.choose = (place) => {
    it.chosen = Math.max(0, Math.min(it.items.length - 1, place));
    const top = it.chosen * LINE;
    if (top < box.scrollTop) box.scrollTop = top;
    if (top + LINE > box.scrollTop + box.clientHeight) box.scrollTop = top + LINE - box.clientHeight;
    it.paint();
  };

  it.show = (items, chosen) => {
    it.items = items;
    it.chosen = -1;
    if (chosen >= 0 && items.length) it.choose(chosen);
    else it.paint();
  };

  const page = () => Math.max(1, Math.floor(box.clientHeight / LINE) - 1);
  const moves = {
    ArrowDown: () => it.chosen + 1,
    ArrowUp: () => it.chosen - 1,
    PageDown: () => it.chosen + page(),
    PageUp: () => it.chosen - page(),
    Home: () => 0,
    End: () => it.items.length - 1,
  };
  box.addEventListener('scroll', it.paint);
  box.addEventListener('keydown', (event) => {
    if (event.ctrlKey || event.altKey || event.metaKey) return;
    if (moves[event.key] && it.items.length) {
      it.choose(moves[event.key]());
      if (it.moved) it.moved();
    } else if (!onKey(event.key, event.shiftKey)) return;
    event.preventDefault();
  });
  return it;
};

// ---- the list of traces

const lowered = (row) => {
  row.text ??= [row.name, row.service, row.kind, row.status, row.description, row.spanId, row.attributes]
    .concat(row.events.flatMap((it) => [it.name, it.attributes]), row.links.map((it) => it.attributes))
    .join('\n').toLowerCase();
  return row.text;
};
const asked = () => at('search').value.toLowerCase().split(/\s+/).filter((it) => it);
const has = (text, words) => words.every((it) => text.includes(it));

const KEYS = {
  when: (it) => BigInt(it.startTimeUnixNano),
  what: (it) => it.service + ' ' + it.name,
  long: (it) => it.durationNano,
  spans: (it) => it.spans,
  errors: (it) => it.errors,
  services: (it) => it.services.join(', '),
};
const order = { by: '', down: false };

const summaryLine = (it) => {
  const line = make('div');
  const what = make('div', 'cell what');
  what.append(make('span', 'dot ' + colour(it.service)), make('bdi', 'soft', it.service), ' ',
    make('bdi', '', it.name));
  line.append(make('div', 'cell when', moment(it.startTimeUnixNano)), what,
    make('div', 'cell long', duration(it.durationNano)), make('div', 'cell spans', it.spans),
    make('div', 'cell errors' + (it.errors ? ' fault' : ''), it.errors),
    make('div', 'cell services', it.services.join(', ')));
  for (const cell of line.children) cell.setAttribute('role', 'gridcell');
  return line;
};

const list = pane(at('all'), summaryLine, (key) => {
  if (key !== 'Enter' || list.chosen < 0) return false;
  location.hash = list.items[list.chosen].traceId;
  return true;
});

const listTraces = () => {
  const words = asked();
  const kept = traces.filter((it) => {
    if (words.length) it.text ??= it.traceId + '\n' + it.rows.map(lowered).join('\n');
    return has(it.text ?? '', words);
  });
  if (order.by) {
    const keyed = kept.map((it) => [KEYS[order.by](it), it]);
    const sign = order.down ? -1 : 1;
    keyed.sort(([a], [b]) => (a < b ? -sign : a > b ? sign : 0));
    keyed.forEach((it, i) => { kept[i] = it[1]; });
  }
  at('found').textContent = kept.length + ' of ' + traces.length + ' traces';
  list.show(kept, kept.indexOf(list.items[list.chosen]));
};

for (const head of at('heads').querySelectorAll('[data-by]')) {
  head.firstChild.addEventListener('click', () => {
    const by = head.dataset.by;
    order.down = order.by === by ? !order.down : ['long', 'spans', 'errors'].includes(by);
    order.by = by;
    for (const it of at('heads').children) it.removeAttribute('aria-sort');
    head.setAttribute('aria-sort', order.down ? 'descending' : 'ascending');
    at('all').scrollTop = 0;
    listTraces();
  });
}
"#;
