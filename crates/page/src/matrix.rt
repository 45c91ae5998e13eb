// The second part of the script: what is known of each pair, and the matrix.

pub(crate) const MATRIX: &str = r#"
// ---- The pairs: { number, first, second, way, both, wins, fault }. The first and the second are participants.

const WAYS = {
  unsafe: ['!', 'unsafe: the two meet in a state that the standard leaves undefined'],
  header: ['H', 'only one can win, in the header'],
  later: ['L', 'only one can win, perhaps later'],
  either: ['E', 'either may win'],
  alike: ['=', 'both always end together'],
  apart: ['-', 'never together: one controller, or kept apart by never'],
};
const WORST = ['unsafe', 'either', 'later', 'header', 'alike', 'apart'];

const faults = new Map(data.faults.map(fault => [fault.pair, fault]));

function wayOf(fault, wins) {
  if (fault) return 'unsafe';
  if (wins[0] && wins[1]) return 'either';
  const decided = wins[0] || wins[1];
  if (!decided) return 'alike';
  return decided[1] < 8 ? 'header' : 'later';
}

// In the order of the participants. The data has them in runs: a participant, the first of those that it meets, how many
// it meets from there on, and the way in which these pairs end.
const pairs = [];
for (const [one, other, count, end] of data.pairs) {
  const { both, first, second } = data.ways[end] || {}, wins = [first, second];
  for (let k = 0; k < count; k++) {
    const number = pairs.length, fault = faults.get(number), way = wayOf(fault, wins);
    pairs.push({ number, first: participants[one], second: participants[other + k], way, both, wins, fault });
  }
}

const slotsText = ([earliest, latest]) =>
  earliest === latest ? 'slot ' + earliest : 'slots ' + earliest + '..' + latest;

// What someone does who offers a kind of item, in the words of the groups.
const deeds = new Map(data.groups.flatMap(({ example, meets }) =>
  faults.get(example).kinds.map((kind, k) => [kind, meets[k]])));

const meetText = fault => fault.kinds.map(kind => deeds.get(kind)).join(' meets ') + ' in slot ' + fault.wire.length;

function endText(pair) {
  if (pair.fault) return 'unsafe, ' + meetText(pair.fault);
  const parts = [];
  if (pair.both) parts.push((pair.way === 'alike' ? 'both always' : 'both may') + ' end together in ' + slotsText(pair.both));
  [pair.first, pair.second].forEach((one, k) => {
    const wins = pair.way === 'either' ? ' may win in ' : ' wins in ';
    if (pair.wins[k]) parts.push(one.label + wins + slotsText(pair.wins[k]));
  });
  return parts.join('; ');
}

const countText = count => count === 1 ? '1 pair' : count + ' pairs';
const namesText = pair => pair.first.label + ' and ' + pair.second.label;
const saidOf = pair => namesText(pair) + ': ' + endText(pair);

// ---- The matrix: of participants, or of families of what they send where there are many pairs.

function element(name, attributes, ...children) {
  const made = name.startsWith('svg:') ? document.createElementNS('http://www.w3.org/2000/svg', name.slice(4))
    : document.createElement(name);
  for (const [key, value] of Object.entries(attributes || {})) made.setAttribute(key, value);
  made.append(...children.filter(child => child !== null));
  return made;
}

const MOST_PAIRS = 2000;

// The rows, which are the columns too: { name, short, members, band, size, edge }. Where there are many pairs each is a family,
// with the number of its messages. Else it is a participant, and those of one family stand together: the first of them has the
// size of this band, and an edge is drawn before each band of several and after it.
function linesOf(many) {
  const bands = new Map();
  for (const one of participants) {
    const band = many ? one.kin : one.party;
    if (!bands.has(band)) bands.set(band, []);
    bands.get(band).push(one);
  }
  const lines = [];
  for (const [band, members] of bands) lines.push(...many ? [familyLine(band, members)] : bandLines(band, members));
  lines.forEach((line, k) => { line.edge = k > 0 && line.size > 0 && Boolean(line.several || lines[k - 1].several); });
  return lines;
}

function familyLine(name, members) {
  const count = new Set(members.map(one => one.message)).size, isFamily = count > 1;
  return { name, short: isFamily ? name + ' (' + count + ')' : name, members, size: 1, isFamily };
}

// Beside the name of its band a participant is shown as the number in which it differs from the others.
function bandLines(band, members) {
  const several = members.length > 1;
  return members.map((one, k) => ({
    name: one.label,
    short: several ? /\d+$/.exec(one.label)?.[0] ?? one.label : one.label,
    members: [one],
    band,
    size: k === 0 ? members.length : 0,
    several,
  }));
}

// The lines, and for each two of them { pair, count, unsafe, groups }: of several pairs the worst, how many they are, how many of
// them are unsafe, and the groups of these.
function gridOf() {
  const many = pairs.length > MOST_PAIRS;
  const lines = linesOf(many);
  const places = new Map(lines.flatMap((line, k) => line.members.map(one => [one, k])));
  const cells = lines.map(() => new Array(lines.length).fill(null));
  for (const pair of pairs) {
    const x = places.get(pair.first), y = places.get(pair.second);
    const cell = cells[x][y] ??= { pair, count: 0, unsafe: 0, groups: new Set() };
    cells[y][x] = cell;
    cell.count += 1;
    if (pair.fault) { cell.unsafe += 1; cell.groups.add(pair.fault.group); }
    if (WORST.indexOf(pair.way) < WORST.indexOf(cell.pair.way)) cell.pair = pair;
  }
  return { lines, cells, many };
}

// Whether a cell is of a participant with itself.
const isItself = (grid, x, y) => x === y && grid.lines[x].members.length === 1;

// What a cell is called: both, and how it ends.
function cellText(grid, x, y) {
  const cell = grid.cells[x][y], [one, other] = [grid.lines[x].name, grid.lines[y].name];
  if (!cell) return isItself(grid, x, y) ? one + ' itself' : one + ' and ' + other + ': ' + WAYS.apart[1];
  if (cell.count === 1) return saidOf(cell.pair);
  return one + ' and ' + other + ': ' + (cell.unsafe > 0 ? cell.unsafe + ' of ' + countText(cell.count) + ' unsafe'
    : countText(cell.count)) + ', such as ' + saidOf(cell.pair);
}

function cellOf(grid, x, y) {
  const cell = grid.cells[x][y], said = cellText(grid, x, y);
  const edge = grid.lines[y].edge ? ' edge' : '';
  if (!cell) {
    return element('td', { role: 'gridcell', class: 'apart' + edge, 'aria-label': said, tabindex: '-1' },
      isItself(grid, x, y) ? '' : WAYS.apart[0]);
  }
  const { number, way } = cell.pair;
  const link = element('a', { href: '#pair-' + number, title: said, 'aria-label': said, tabindex: '-1', 'data-pair': number },
    WAYS[way][0]);
  return element('td', { role: 'gridcell', class: way + edge }, link);
}

// The names of the columns: above those of a band its own.
function headOf(lines, banded) {
  const head = (line, name, more, text) => element('th', { role: 'columnheader', class: line.edge ? name + ' edge' : name, ...more },
    element('span', {}, text));
  const tall = banded ? { rowspan: 2 } : {};
  const above = lines.filter(line => line.size > 0).map(line => line.size > 1
    ? head(line, 'column band', { scope: 'colgroup', colspan: line.size }, line.band)
    : head(line, line.isFamily ? 'column band' : 'column', { scope: 'col', ...tall }, line.short));
  const below = lines.filter(line => line.several)
    .map(line => head(line, 'column', { scope: 'col', 'aria-label': line.name }, line.short));
  return element('thead', {}, element('tr', { role: 'row' }, element('td', banded ? { colspan: 2, rowspan: 2 } : {}), ...above),
    banded ? element('tr', { role: 'row' }, ...below) : null);
}

function rowOf(grid, line, x, banded) {
  const head = (name, more, text) => element('th', { role: 'rowheader', class: name, ...more }, text);
  const band = line.size > 1 ? head('row band', { scope: 'rowgroup', rowspan: line.size }, line.band) : null;
  const own = line.several ? { 'aria-label': line.name } : banded ? { colspan: 2 } : {};
  return element('tr', { role: 'row', 'aria-label': line.name, class: line.edge ? 'edge' : '' }, band,
    head(line.isFamily ? 'row band' : 'row', { scope: 'row', ...own }, line.short), ...grid.lines.map((_, y) => cellOf(grid, x, y)));
}

function matrixOf(grid) {
  const { lines } = grid, banded = lines.some(line => line.several);
  const table = element('table', { role: 'grid', 'aria-label': 'The pairs', 'aria-describedby': 'keys',
    class: lines.length > 24 ? 'matrix small' : 'matrix',
    style: '--lines: ' + lines.length + '; --head: ' + (4 + Math.max(...lines.map(line => line.name.length)) / 2) },
    headOf(lines, banded), element('tbody', {}, ...lines.map((line, x) => rowOf(grid, line, x, banded))));
  steer(table);
  return element('div', { class: 'wide', id: 'matrix' }, table,
    element('p', { id: 'keys', class: 'hint' }, 'Arrow keys, Home and End go from cell to cell. Enter draws the pair.'));
}

// ---- Keys in the matrix: one cell of it is in the order of tabs, and the others are reached from there.

const STEPS = { ArrowUp: [-1, 0], ArrowDown: [1, 0], ArrowLeft: [0, -1], ArrowRight: [0, 1] };

// What takes the focus in a cell: its link, or the cell itself.
const stopOf = cell => cell.firstElementChild ?? cell;

function steer(table) {
  const rows = [...table.tBodies[0].rows].map(row => [...row.cells].filter(cell => cell.localName === 'td').map(stopOf));
  const last = rows.length - 1;
  let at = null;
  const stand = stop => {
    at?.setAttribute('tabindex', '-1');
    at = stop;
    at.setAttribute('tabindex', '0');
  };
  stand(rows[0].find(stop => stop.dataset.pair) ?? rows[0][0]);
  table.addEventListener('focusin', event => stand(event.target));
  table.addEventListener('keydown', event => {
    if (event.altKey || event.metaKey) return;
    const x = rows.findIndex(row => row.includes(event.target)), y = rows[x].indexOf(event.target);
    const step = STEPS[event.key];
    let to = null;
    if (step) to = rows[x + step[0]]?.[y + step[1]] ?? event.target;
    else if (event.key === 'Home') to = rows[event.ctrlKey ? 0 : x][0];
    else if (event.key === 'End') to = rows[event.ctrlKey ? last : x][last];
    else if (event.key === ' ') event.target.click();
    else return;
    event.preventDefault();
    to?.focus();
  });
}

// Marks the cells in which pairs of this group stand, and says how many these are.
function markGroup(grid, number) {
  let count = 0;
  for (const stop of document.querySelectorAll('.of-group')) stop.classList.remove('of-group');
  const rows = document.querySelector('.matrix').tBodies[0].rows;
  grid.lines.forEach((_, x) => {
    const cells = [...rows[x].cells].filter(cell => cell.localName === 'td');
    grid.lines.forEach((_, y) => {
      if (!grid.cells[x][y]?.groups.has(number)) return;
      cells[y].classList.add('of-group');
      count += 1;
      if (count === 1) stopOf(cells[y]).focus({ preventScroll: true });
    });
  });
  document.getElementById('matrix').scrollIntoView({ block: 'nearest' });
  return count;
}

function keyOf() {
  const counts = {};
  for (const pair of pairs) counts[pair.way] = (counts[pair.way] || 0) + 1;
  return element('ul', { class: 'key' }, ...Object.entries(WAYS).map(([way, [sign, said]]) =>
    element('li', {}, element('b', { class: way }, sign), ' ' + said
      + (way === 'apart' ? '' : ' (' + (counts[way] || 0) + ')'))));
}
"#;
