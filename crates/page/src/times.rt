// The last part of the script: who wins, what is sent, and the page itself.

pub(crate) const TIMES: &str = r#"
// ---- Who wins.

function totalsOf() {
  const counted = participants.filter(one => one.total);
  if (counted.length === 0) return [];
  const head = element('tr', {}, ...['participant', 'wins', 'may win', 'loses', ''].map((name, k) =>
    element('th', { scope: 'col', class: k === 0 || k === 4 ? '' : 'number' }, name)));
  return [element('h2', {}, 'Who wins'),
    element('p', {}, 'In how many of its pairs a participant alone can win, in how many either can, and in how many only the '
      + 'other one can. Whoever never wins may wait for long on a busy bus.'),
    element('div', { class: 'wide' }, element('table', { class: 'lines' }, element('thead', {}, head), element('tbody', {},
      ...counted.map(({ label, total }) => element('tr', {}, element('th', { scope: 'row' }, label),
        ...[total.wins, total.may_win, total.loses].map(count => element('td', { class: 'number' }, count)),
        element('td', {}, total.wins === 0 && total.may_win === 0 ? 'never wins' : ''))))))];
}

// ---- What each participant sends.

function sendersOf() {
  const rows = [];
  const row = (who, what) => rows.push(element('tr', {}, element('th', { scope: 'row' }, who), element('td', {}, ...what)));
  for (const message of data.messages) {
    const paths = rowsOf(message.frame, 'S', 0, []);
    row(message.name, [...paths.map(path => element('div', { class: 'mono', style: 'margin-left:' + path.depth * 1.5 + 'rem' },
      path.text)), element('div', {}, message.controllers.length > 0 ? 'sent by ' + message.controllers.join(', ')
      : 'nobody sends it')]);
  }
  for (const one of data.interrupts) {
    row('!' + one.name, [element('div', { class: 'mono' }, 'S ' + hexOf(one.address) + ' Rd (waits)'),
      element('div', {}, 'an interrupt')]);
  }
  const nevers = data.nevers.map(two => two.map(one => data.controllers[one]).join(' and ') + ' never start together');
  return [element('h2', {}, 'What is sent'),
    element('p', {}, 'S is START, Sr a repeated START, P STOP, A an acknowledge and NA none; 48 Wr is a write to address 0x48; '
      + 'any is a byte with eight open bits, x one open bit. What is done after an NA stands below, where it is more than a STOP.'),
    element('div', { class: 'wide' }, element('table', { class: 'lines' }, element('tbody', {}, ...rows))),
    ...nevers.map(said => element('p', {}, said + '.'))];
}

// ---- The page.

function choiceOf(draw, tell) {
  const byNames = new Map(pairs.flatMap(pair => {
    const [one, other] = [pair.first.label, pair.second.label];
    return [[one + ' ' + other, pair], [other + ' ' + one, pair]];
  }));
  const select = name => element('select', { 'aria-label': name }, ...participants.map(p => element('option', {}, p.label)));
  const one = select('one participant'), other = select('the other participant');
  one.value = pairs[0].first.label;
  other.value = pairs[0].second.label;
  const form = element('form', {}, 'Draw ', one, ' and ', other, element('button', {}, 'Draw'));
  form.addEventListener('submit', event => {
    event.preventDefault();
    const pair = byNames.get(one.value + ' ' + other.value);
    if (pair) draw(pair.number);
    else tell(one.value + ' and ' + other.value + ': ' + WAYS.apart[1] + '.');
  });
  return form;
}

function verdictText() {
  const { safe, pairs, unsafe_pairs } = data.verdict;
  return safe ? 'safe: ' + pairs + ' pairs' : 'unsafe: ' + unsafe_pairs + ' of ' + pairs + ' pairs';
}

// The groups, the matrix and the drawing of one pair.
function pairsOf() {
  const grid = gridOf();
  const chosen = element('section', { id: 'chosen', 'aria-label': 'The drawing of a pair' });
  const note = element('p', { id: 'note', role: 'status', class: 'hint' });
  const tell = said => { note.textContent = said; };
  const show = number => {
    const pair = pairs[number];
    if (!pair) return;
    chosen.replaceChildren(shownPair(pair, 'pair-' + number, 'h3'));
    scrollToEnds(chosen);
    for (const link of document.querySelectorAll('a[aria-current]')) link.removeAttribute('aria-current');
    for (const link of document.querySelectorAll('a[data-pair="' + number + '"]')) link.setAttribute('aria-current', 'true');
    tell('Drawn below: pair ' + number + ', ' + saidOf(pair) + '.');
    chosen.scrollIntoView({ block: 'nearest' });
  };
  // (so the focus stays where it is, and the address leads to the drawing)
  const draw = number => {
    if (location.hash !== '#pair-' + number) history.pushState(null, '', '#pair-' + number);
    show(number);
  };
  const mark = number => {
    const cells = markGroup(grid, number);
    tell('Marked: group ' + number + ', ' + countText(data.groups[number].pairs) + ' in '
      + (cells === 1 ? '1 cell' : cells + ' cells') + ' of the matrix.');
  };
  const follow = () => {
    const found = /^#pair-(\d+)$/.exec(location.hash);
    if (found) show(Number(found[1]));
    else document.getElementById(location.hash.slice(1))?.scrollIntoView();
  };
  const matrix = matrixOf(grid);
  matrix.addEventListener('click', event => {
    const link = event.target.closest('a[data-pair]');
    if (!link || event.ctrlKey || event.metaKey || event.shiftKey) return;
    event.preventDefault();
    draw(Number(link.dataset.pair));
  });
  window.addEventListener('hashchange', follow);
  const many = pairs.length + ' pairs, shown by what is sent: messages of one family stand together, whoever sends them. Of '
    + 'several pairs a cell has the worst one.';
  return {
    parts: [...groupsOf(mark), element('h2', {}, 'The pairs'), keyOf(), grid.many ? element('p', {}, many) : null, matrix,
      choiceOf(draw, tell), note, chosen],
    follow,
  };
}

function page() {
  const main = document.getElementById('main');
  const verdict = document.getElementById('verdict');
  verdict.textContent = verdictText();
  if (!data.verdict.safe) verdict.classList.add('is-unsafe');
  let follow = () => {};
  if (pairs.length === 0) {
    main.append(element('p', {}, 'No two participants may start together, so nothing was checked.'));
  } else {
    const shown = pairsOf();
    follow = shown.follow;
    main.append(...shown.parts.filter(part => part !== null), ...totalsOf());
  }
  main.append(...sendersOf());
  const capture = data.capture ? captureOf(data.capture) : null;
  if (capture) main.append(...capture.parts);
  scrollToEnds(main);
  if (capture) capture.draw();
  follow();
}

page();
"#;
