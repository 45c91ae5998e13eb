// The fourth part of the script: the groups of unsafe pairs.

pub(crate) const GROUP_LIST: &str = r#"
// ---- The groups, each with the drawing of the pair that stands for it.

// How many of those who meet are named at once, and how many groups have a drawing.
const NAMED = 4, MOST_DRAWN = 100;

// The latest slot in which a pair of each group meets.
const latest = [];
for (const { group, wire } of data.faults) latest[group] = Math.max(latest[group] ?? 0, wire.length);

const meetsText = between => between.map(two => two.join(' × ')).join(', ');

// In what the pairs of a group are alike: the example is the one with the shortest wire.
function groupText(number) {
  const { pairs, between, why, example } = data.groups[number];
  const fault = faults.get(example), more = between.length - NAMED;
  const meets = meetsText(between.slice(0, NAMED)) + (more > 0 ? ' and ' + more + ' more' : '');
  return countText(pairs) + ': ' + meets + ', ' + why + ', ' + meetText(fault)
    + (latest[number] > fault.wire.length ? ' at the earliest' : '');
}

// What is opened by a click, and in print.
const opened = (summary, content, open) =>
  element('details', open ? { class: 'printed', open: '' } : { class: 'printed' }, element('summary', {}, summary), content);

// What is offered to mend pairs: in words, and the lines as they would stand.
const offerOf = ({ said, lines }) => element('div', { class: 'offer' },
  element('p', {}, said),
  lines.length > 0 ? element('pre', {}, lines.join('\n')) : null);

function groupOf(number, mark) {
  const { between, example, offers } = data.groups[number];
  const show = element('a', { href: '#matrix' }, 'Mark its cells in the matrix');
  show.addEventListener('click', event => { event.preventDefault(); mark(number); });
  return element('li', { id: 'group-' + number, tabindex: '-1' },
    element('h3', {}, 'Group ' + number + ', ' + groupText(number)),
    element('p', { class: 'mark' }, show),
    ...offers.map(offerOf),
    between.length > NAMED ? opened('All who meet', element('p', {}, meetsText(between))) : null,
    number < MOST_DRAWN ? opened('As pair ' + example, shownPair(pairs[example], 'example-' + number, 'h4'), number === 0)
      : element('p', {}, element('a', { href: '#pair-' + example }, 'As pair ' + example)));
}

function groupsOf(mark) {
  const { safe, pairs, unsafe_pairs } = data.verdict;
  if (safe) return [element('p', {}, 'No pair of ' + pairs + ' is unsafe, so there are no groups of unsafe pairs.')];
  const count = data.groups.length;
  return [element('h2', {}, 'Why it is unsafe'),
    element('p', {}, countText(unsafe_pairs) + ' in ' + (count === 1 ? '1 group' : count + ' groups') + ' of one cause each. ',
      element('a', { href: '#matrix' }, 'All pairs'), ' stand below.'),
    ...data.offers.map(offerOf),
    element('ol', { class: 'groups', role: 'list', 'aria-label': 'Groups of unsafe pairs' },
      ...data.groups.map((_, number) => groupOf(number, mark)))];
}

// In print all is open.
let shut = [];
window.addEventListener('beforeprint', () => {
  shut = [...document.querySelectorAll('details.printed:not([open])')];
  for (const one of shut) one.open = true;
});
window.addEventListener('afterprint', () => { for (const one of shut) one.open = false; });
"#;
