// The third part of the script: the drawing of a pair, as the standard draws arbitration (UM10204, 3.1.8): the data of both, SDA
// and SCL.

pub(crate) const DRAWINGS: &str = r#"
// ---- A run of a pair, slot by slot: { wire, puts, kinds, open } up to where the two meet or part, and then what the winner
// goes on with to the end of the byte. Of a safe pair it is the one in which every byte is acknowledged.

const SYMBOLS = { answer: 'l', restart: 'r', stop: 's', claim: 'c' };

const isOpen = place => Boolean(place) && place.kind === 'data' && place.bit === 'x';

// What each may put of an open bit, so that they part where they may.
function partedOf(first, second) {
  if (first.bit !== second.bit && isKnown(first.bit + second.bit)) return [first.bit, second.bit];
  if (isKnown(first.bit + second.bit)) return null;
  if (first.bit !== '1' && second.bit !== '0') return ['0', '1'];
  return ['1', '0'];
}

function metRun(pair) {
  const slots = [];
  let first = pair.first.start(), second = pair.second.start();
  for (const symbol of pair.fault.wire) {
    slots.push({ wire: symbol, puts: [symbol, symbol], kinds: [first.kind, second.kind], open: [first, second].map(isOpen) });
    first = first.after(symbol);
    second = second.after(symbol);
  }
  const puts = [first, second].map(place => place.kind === 'data' ? place.bit : SYMBOLS[place.kind]);
  slots.push({ wire: '?', puts, kinds: [first.kind, second.kind], open: [first, second].map(isOpen), meets: true });
  return { slots, end: pair.fault.wire.length };
}

function partedRun(pair) {
  const slots = [];
  let places = [pair.first.start(), pair.second.start()], lost = null, end = null;
  for (;;) {
    const kinds = places.map(place => place && place.kind);
    if (lost === null && kinds[0] === 'data' && kinds[1] === 'data') {
      const parted = partedOf(places[0], places[1]);
      if (parted) {
        lost = parted[0] === '1' ? 0 : 1;
        end = slots.length;
        const may = !isKnown(places[0].bit + places[1].bit);
        slots.push({ wire: '0', puts: parted, kinds, open: places.map(isOpen), parts: true, may });
        places = places.map((place, k) => k === lost ? null : place.after('0'));
        continue;
      }
    }
    const live = places.find(place => place);
    const symbol = live.kind === 'data' ? live.bit.replace('x', '0') : SYMBOLS[live.kind];
    slots.push({ wire: symbol, puts: places.map(place => place ? symbol : null), kinds, open: places.map(isOpen) });
    places = places.map(place => place && place.after(symbol));
    if (symbol === 's' || symbol === 'c') break;
    if (lost !== null && (symbol === 'l' || slots.length - end > 12)) break;
  }
  return { slots, end: end === null ? slots.length - 1 : end, lost };
}

// ---- Its bytes.

const isLow = symbol => symbol === '0' || symbol === 'l';
const SIGNS = { r: 'Sr', s: 'P', c: '(waits)' };

// The words of what is put from a START on: bytes, their acknowledges, Sr and P.
function wordsOf(symbols) {
  const words = ['S'], digits = bits => isKnown(bits) ? hexOf(bits) : bits;
  let bits = '', header = true;
  const flush = () => {
    if (bits.length === 8 && header) words.push(digits(bits.slice(0, 7)), bits[7] === '1' ? 'Rd' : 'Wr');
    else if (bits) words.push(bits.length === 8 ? digits(bits) : bits);
    bits = '';
  };
  for (const symbol of symbols) {
    if (SIGNS[symbol]) {
      flush();
      words.push(SIGNS[symbol]);
      header = true;
    } else if (bits.length < 8) {
      bits += symbol === 'x' ? 'x' : isLow(symbol) ? '0' : '1';
    } else {
      flush();
      words.push(symbol === 'x' ? 'A/NA' : isLow(symbol) ? 'A' : 'NA');
      header = false;
    }
  }
  flush();
  return words;
}

// What a participant puts along a wire, and on to the end of the byte in which the wire ends. What it hears is as on the wire.
function putsAlong(participant, wire) {
  const puts = [];
  let place = participant.start(), bits = 0;
  const put = symbol => {
    puts.push(symbol);
    bits = SIGNS[symbol] || bits === 8 ? 0 : bits + 1;
  };
  for (const symbol of wire) {
    put(place.kind === 'data' ? place.bit : symbol);
    place = place.after(symbol);
  }
  do {
    if (!place || place.kind === 'answer') break;
    put(place.kind === 'data' ? place.bit : SYMBOLS[place.kind]);
    place = place.kind === 'data' ? place.after(place.bit === '1' ? '1' : '0') : null;
  } while (bits % 8 !== 0);
  return puts;
}

// How many characters of a label stand beside bytes and a drawing, so that a narrow window has room for these.
const LABEL = 24;

const beside = ({ label }) => label.length > LABEL ? label.slice(0, LABEL / 2 - 1) + '..' + label.slice(1 - LABEL / 2) : label;

// Of many words the first four, and the last ones.
const HEAD_WORDS = 4, LAST_WORDS = 9;

// Three rows, one below the other: the bytes on the bus, and those of both with what they do next, of which the data has words
// where the pair is unsafe.
function bytesText(pair, wire) {
  const all = [wordsOf(wire), ...[pair.first, pair.second].map(one => wordsOf(putsAlong(one, wire)))];
  const from = Math.max(HEAD_WORDS, ...all.map(words => words.length - LAST_WORDS));
  const texts = all.map(words => (from <= HEAD_WORDS + 2 ? words
    : [...words.slice(0, HEAD_WORDS), '..', ...words.slice(from)]).join(' '));
  const titles = ['bus', beside(pair.first), beside(pair.second)];
  const widest = list => Math.max(...list.map(text => text.length));
  return titles.map((title, k) => title.padEnd(widest(titles) + 2) + (k > 0 && pair.fault
    ? texts[k].padEnd(widest(texts) + 2) + 'next: ' + deeds.get(pair.fault.kinds[k - 1]) : texts[k])).join('\n');
}

// The parts of a wire, each with its first slot and how many it has: { from, size, text }.
function partsOf(symbols) {
  const parts = [];
  let header = true;
  symbols.forEach((symbol, k) => {
    const last = parts[parts.length - 1];
    if (symbol === 'c' || symbol === '?') return;
    if (symbol === 'r' || symbol === 's') {
      parts.push({ from: k, size: 1, text: SIGNS[symbol] });
      header = true;
    } else if (last && last.bits && last.size < 8) {
      last.bits += isLow(symbol) ? '0' : '1';
      last.size += 1;
    } else if (last && last.bits) {
      parts.push({ from: k, size: 1, text: isLow(symbol) ? 'A' : 'NA' });
      header = false;
    } else {
      parts.push({ from: k, size: 1, bits: isLow(symbol) ? '0' : '1', header });
    }
  });
  return parts.map(part => ({ ...part, text: part.text || (part.size < 8 ? ''
    : part.header ? hexOf(part.bits.slice(0, 7)) + (part.bits[7] === '1' ? ' Rd' : ' Wr') : hexOf(part.bits)) }));
}

// ---- The drawing: the slots of the first byte, those before the end, and what comes after it. Of many bytes alike those in the
// middle are folded. The names beside it stay where it is scrolled, and the end is scrolled into view.

const WIDE = 26, TALL = 18, LEFT = 4, FOLD = 146, HEADER = 9, BEFORE = 18;
const ROWS = { first: 40, second: 86, sda: 132, scl: 178 };

// Where slots stand: { parts, from, bytes, spans, x }. From the slot `from` on they stand after the fold, which has so many
// bytes. The spans are the slots that are drawn, as the first one of each and the one after its last.
function layOut(run) {
  const parts = partsOf(run.slots.map(slot => slot.wire));
  const begin = parts.find(part => part.bits && part.from >= run.end - BEFORE)?.from ?? 0;
  const from = begin > HEADER ? begin : 0;
  const bytes = parts.filter(part => part.bits && part.from >= HEADER && part.from < from).length;
  const last = run.slots.length;
  return {
    parts, from, bytes,
    spans: from > 0 ? [[0, HEADER], [from, last]] : [[0, last]],
    x: k => LEFT + (k + 1) * WIDE + (from > 0 && k >= from ? FOLD - (from - HEADER) * WIDE : 0),
  };
}

const isDrawn = (laid, k) => laid.spans.some(([from, end]) => k >= from && k < end);

// The level of a line in each slot as a path, in which START, repeated START and STOP are seen beside SCL.
function levelPath(symbols, top, x) {
  const low = top + TALL;
  let at = null;
  const path = [];
  const to = (place, level) => {
    path.push((at === null ? 'M' : 'L') + place + ' ' + (at === null ? level : at) + ' L' + (place + 4) + ' ' + level);
    at = level;
  };
  symbols.forEach((symbol, k) => {
    const left = x(k);
    if (symbol === 'S') { to(left, top); to(left + WIDE / 2, low); }
    else if (symbol === 'r') { to(left, top); to(left + WIDE * .6, low); }
    else if (symbol === 's') { to(left, low); to(left + WIDE * .6, top); }
    else to(left, isLow(symbol) ? low : top);
    path.push('L' + (left + WIDE) + ' ' + at);
  });
  return path.join(' ');
}

function clockPath(symbols, top, x) {
  const low = top + TALL;
  const path = [];
  symbols.forEach((symbol, k) => {
    const left = x(k), begin = path.length ? 'L' : 'M';
    if (symbol === 'S') path.push(begin + left + ' ' + top + ' L' + (left + WIDE * .8) + ' ' + top + ' L' + (left + WIDE) + ' ' + low);
    else if (symbol === 's') path.push('L' + left + ' ' + low + ' L' + (left + WIDE * .3) + ' ' + low + ' L' + (left + WIDE * .38) + ' ' + top + ' L' + (left + WIDE) + ' ' + top);
    else {
      path.push(begin + left + ' ' + low + ' L' + (left + WIDE * .3) + ' ' + low + ' L' + (left + WIDE * .38) + ' ' + top
        + ' L' + (left + WIDE * .8) + ' ' + top + ' L' + (left + WIDE * .9) + ' ' + low + ' L' + (left + WIDE) + ' ' + low);
    }
  });
  return path.join(' ');
}

// Stretches of slots in which a participant drives the line, and in which it lets go of it.
function stretchesOf(puts, kinds) {
  const stretches = [];
  puts.forEach((put, k) => {
    const idle = put === null || kinds[k] === 'answer';
    const last = stretches[stretches.length - 1];
    if (last && last.idle === idle) last.puts.push(idle ? '1' : put);
    else stretches.push({ idle, from: k, puts: [idle ? '1' : put] });
  });
  return stretches;
}

// Drawings that are wider than their room are scrolled so that their ends are seen, and in any case the slot of the fault: once
// they stand in the page, and when they are opened or have another room.
function scrollToEnds(within) {
  for (const drawn of within.querySelectorAll('.drawn')) {
    const { end, slot } = drawn.dataset;
    drawn.scrollLeft = Math.min(Number(end) - drawn.clientWidth, Number(slot));
  }
}

document.addEventListener('toggle', event => scrollToEnds(event.target), true);
window.addEventListener('resize', () => scrollToEnds(document));

function drawingOf(pair) {
  const run = pair.fault ? metRun(pair) : partedRun(pair);
  const laid = layOut(run), { x, spans } = laid;
  const margin = LEFT + 8 + 7.4 * Math.max(beside(pair.first).length, beside(pair.second).length, 4);
  const after = pair.fault ? Math.max(...pair.fault.kinds.map(kind => deeds.get(kind).length)) : 8;
  const width = x(run.slots.length) + 12 + 7.4 * after;
  const names = element('svg:svg', { viewBox: '0 0 ' + margin + ' 248', width: margin, height: 248, class: 'names',
    'aria-hidden': 'true', style: '--part: ' + margin });
  const svg = element('svg:svg', { viewBox: '0 0 ' + width + ' 248', width, height: 248, role: 'img',
    'aria-label': saidOf(pair), style: '--part: ' + width });
  const lines = svg.appendChild(element('svg:g', { 'aria-hidden': 'true' }));
  const put = (to, name, attributes, text) =>
    to.append(element('svg:' + name, attributes, ...(text === undefined ? [] : [text])));
  const add = (name, attributes, text) => put(lines, name, attributes, text);
  const write = (at, y, text, name) => add('text', { x: at, y, 'text-anchor': 'middle', class: name }, text);
  const call = (y, text, faint) => put(names, 'text', faint ? { x: LEFT, y, class: 'faint' } : { x: LEFT, y }, text);
  const mark = run.slots[run.end] || {};
  if (mark.meets || mark.parts) {
    add('rect', { x: x(run.end), y: 24, width: WIDE, height: 180, class: mark.meets ? 'meeting' : 'parting' });
  }
  if (laid.from > 0) {
    add('rect', { x: x(HEADER), y: 24, width: FOLD, height: 180, class: 'fold' });
    write(x(HEADER) + FOLD / 2, 120, '.. ' + laid.bytes + (laid.bytes === 1 ? ' byte' : ' bytes') + ' alike ..', 'faint');
  }
  run.slots.forEach((slot, k) => {
    if (!isDrawn(laid, k)) return;
    add('line', { x1: x(k), x2: x(k), y1: 20, y2: 206, class: 'grid' });
    write(x(k) + WIDE / 2, 14, String(k), 'faint');
    write(x(k) + WIDE / 2, 222, slot.wire, 'wire');
  });
  for (const part of laid.parts) {
    if (isDrawn(laid, part.from)) write(x(part.from) + part.size * WIDE / 2, 241, part.text, 'faint');
  }
  call(14, 'slot', true);
  call(222, 'wire', true);
  call(241, 'byte', true);
  [[pair.first, ROWS.first, 0], [pair.second, ROWS.second, 1]].forEach(([participant, top, k]) => {
    call(top + 14, beside(participant));
    run.slots.forEach((slot, j) => {
      if (!slot.open[k] || !isDrawn(laid, j)) return;
      add('rect', { x: x(j) + 1, y: top - 1, width: WIDE - 2, height: TALL + 2, class: 'either' });
      write(x(j) + WIDE / 2, top - 5, 'x', 'open');
    });
    for (const [from, end] of spans) {
      const slots = run.slots.slice(from, end);
      for (const stretch of stretchesOf(slots.map(slot => slot.puts[k]), slots.map(slot => slot.kinds[k]))) {
        const opens = from + stretch.from === 0;
        const puts = opens ? ['S', ...stretch.puts] : stretch.puts;
        const first = from + stretch.from - (opens ? 1 : 0);
        add('path', { d: levelPath(puts, top, j => x(first + j)), class: stretch.idle ? 'idle' : 'level' });
      }
    }
    if (run.lost === k) add('text', { x: x(run.end + 1) + 4, y: top + TALL + 14, class: 'faint' }, 'has lost');
  });
  call(ROWS.sda + 14, 'SDA');
  call(ROWS.scl + 14, 'SCL');
  for (const [from, end] of spans) {
    const wire = run.slots.slice(from, end).map(slot => slot.wire).filter(symbol => symbol !== '?');
    const symbols = from === 0 ? ['S', ...wire] : wire;
    const at = k => x(from + k - (from === 0 ? 1 : 0));
    if (symbols.length === 0) continue;
    add('path', { d: levelPath(symbols, ROWS.sda, at), class: 'level' });
    add('path', { d: clockPath(symbols, ROWS.scl, at), class: 'level' });
  }
  if (mark.meets) {
    write(x(run.end) + WIDE / 2, ROWS.sda + 13, '?', 'sign');
    [ROWS.first, ROWS.second].forEach((top, k) =>
      add('text', { x: x(run.end) + WIDE + 4, y: top + 14 }, deeds.get(pair.fault.kinds[k])));
  }
  const drawn = element('div', { class: 'wide drawn', 'data-slot': x(run.end),
    'data-end': margin + (pair.fault ? width : x(run.end + 2)), style: '--all: ' + (margin + width) }, names, svg);
  return { drawn, run };
}

// What stands in a drawing that not everyone knows.
function legendOf(run) {
  const item = (name, sign, said) => element('li', {}, element('b', { class: name }, sign), ' ' + said);
  return element('ul', { class: 'key small' },
    run.slots.some(slot => slot.open.includes(true))
      ? item('open-bit', 'x', 'an open bit: who sends it may send 0 or 1 there. One of them is drawn') : null,
    item('idle', '- -', 'the participant leaves the line alone: it hears a target, or has lost'),
    run.slots[run.end]?.meets ? item('unsafe', '?', 'here the two meet, and the bus is undefined') : null);
}

const withInterrupt = pair => [pair.first, pair.second].some(one => one.interrupt !== undefined);

function meetingText(pair, run) {
  const slot = run.slots[run.end];
  if (pair.fault) {
    const rule = withInterrupt(pair) ? 'the profile of interrupts' : 'UM10204 3.1.8';
    return 'Slot ' + run.end + ', ' + rule + ': ' + pair.fault.kinds.map(kind => deeds.get(kind)).join(' meets ')
      + '. Both send alike until here, so neither has lost, and what follows is undefined.';
  }
  if (!slot.parts) return 'Where every byte is acknowledged, both send the same to the end, and neither loses.';
  const winner = (run.lost === 0 ? pair.second : pair.first).label;
  return slot.may ? 'Slot ' + run.end + ': the first in which they may part. Here ' + winner + ' sends 0 and wins.'
    : 'Slot ' + run.end + ': ' + winner + ' sends 0 and wins; the other one has lost.';
}

// Where the messages of the two, or the interrupts, stand in briefs.
function placesOf(pair) {
  const places = [...new Set([pair.first, pair.second].map(one => one.place).filter(place => place))];
  return places.length > 0 ? element('p', {}, 'See ' + places.join(' and ') + '.') : null;
}

// The drawing of a pair with what is said of it, with this id and at this level of headings.
function shownPair(pair, id, heading) {
  const { drawn, run } = drawingOf(pair);
  const wire = run.slots.slice(0, run.end).map(slot => slot.wire);
  return element('div', { class: 'drawing', id },
    element(heading, {}, 'pair ' + pair.number + ': ' + namesText(pair) + ' ',
      element('b', { class: pair.way, 'aria-hidden': 'true' }, '\u00a0' + WAYS[pair.way][0] + '\u00a0')),
    element('p', {}, endText(pair) + '. ', pair.fault && heading === 'h3'
      ? element('a', { href: '#group-' + pair.fault.group },
        'Group ' + pair.fault.group + (data.groups[pair.fault.group].offers.length > 0 ? ', and what mends it' : '')) : null),
    element('pre', { class: 'rows' }, bytesText(pair, wire)),
    drawn, legendOf(run),
    element('p', {}, meetingText(pair, run)),
    placesOf(pair));
}
"#;
