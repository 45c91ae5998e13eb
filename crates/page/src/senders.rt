// The first part of the script of a page: the data, and what each participant sends.

pub(crate) const SENDERS: &str = r#"
'use strict';

// ---- The data. Messages, controllers, interrupts, participants and pairs go by their numbers, from 0.

const data = JSON.parse(document.getElementById('data').textContent);

// The first header of a message of these nodes. Each node is { write | read | byte } with what follows it. That stands
// before it in the list, and has a number from 1 on; here the number becomes the node itself, or null for a STOP.
function treeOf(nodes) {
  const known = [null];
  for (const node of nodes) {
    for (const answer of ['acked', 'after', 'refused']) node[answer] = known[node[answer] || 0];
    known.push(node);
  }
  return known[known.length - 1];
}

for (const message of data.messages) Object.assign(message, { frame: treeOf(message.nodes), controllers: [] });

// The participants: { label, party, kin, start }, and what the data says of each. The party is what it is called with its family,
// and the kin what that family is called without its controller.
const participants = data.participants.map(one => {
  const party = one.family ?? one.label;
  if (one.interrupt !== undefined) {
    const { address } = data.interrupts[one.interrupt];
    const waits = () => ({ kind: 'claim', after: () => null });
    return { ...one, party, kin: one.label, start: () => bitsAt(address + '1', 0, waits) };
  }
  const message = data.messages[one.message];
  message.controllers.push(data.controllers[one.controller]);
  return { ...one, party, kin: message.family ?? message.name, start: () => frameAt(message.frame) };
});

// ---- Places: what is put next, and what is left after each symbol of the wire.

const bitsAt = (bits, k, next) => k === bits.length ? next()
  : { kind: 'data', bit: bits[k], after: () => bitsAt(bits, k + 1, next) };
const answerAt = (acked, refused) => ({ kind: 'answer', after: symbol => symbol === 'l' ? acked() : refused() });
const heardAt = (left, next) => left === 0 ? next() : { kind: 'answer', after: () => heardAt(left - 1, next) };
const tailAt = node => node ? { kind: 'restart', after: () => frameAt(node) } : { kind: 'stop', after: () => null };
const isByte = node => Boolean(node) && node.byte !== undefined;
const payloadAt = node => isByte(node)
  ? bitsAt(node.byte, 0, () => answerAt(() => payloadAt(node.acked), () => tailAt(node.refused)))
  : tailAt(node);
const frameAt = node => bitsAt(node.read ? node.read + '1' : node.write + '0', 0, () => answerAt(
  () => node.read ? byteAt(node, 1) : payloadAt(node.acked), () => tailAt(node.refused)));
const byteAt = (node, n) => heardAt(8, () => ({
  kind: 'data',
  bit: n < node.bytes[0] ? '0' : n === node.bytes[1] ? '1' : 'x',
  after: symbol => symbol === '0' ? byteAt(node, n + 1) : tailAt(node.after),
}));

// ---- Bytes, as documents of the bus write them: S 48 Wr A 01 A Sr 48 Rd A .. NA P.

const hexOf = bits => parseInt(bits, 2).toString(16).padStart(2, '0');
const isKnown = bits => !bits.includes('x');
const byteName = bits => isKnown(bits) ? hexOf(bits) : /^x+$/.test(bits) ? 'any' : bits;

// The rows of a message: each path as far as it is acknowledged, and below it what is done after a refusal, where that is
// more than a STOP.
function rowsOf(header, begin, depth, rows) {
  const words = [begin], turns = [];
  const refusal = (what, other) => { if (other) turns.push([what, other]); };
  for (let node = header; node;) {
    if (node !== header) words.push('Sr');
    const name = byteName(node.read || node.write) + (node.read ? ' Rd' : ' Wr');
    words.push(name, 'A');
    refusal(name, node.refused);
    if (node.read) {
      const [least, greatest] = node.bytes;
      words.push('(' + (least === greatest ? least : least + '..' + greatest) + ' read) NA');
      node = node.after;
    } else {
      let last = null, times = 0;
      const flush = () => { if (last) words.push(times > 1 ? last + '*' + times : last, 'A'); times = 0; };
      for (node = node.acked; isByte(node); node = node.acked) {
        const byte = byteName(node.byte);
        if (byte !== last) { flush(); last = byte; }
        times += 1;
        refusal(byte, node.refused);
      }
      flush();
    }
  }
  words.push('P');
  rows.push({ depth, text: words.join(' ') });
  const shown = new Set();
  for (const [what, other] of turns) {
    if (rows.length > 40) { rows.push({ depth, text: '..' }); return rows; }
    const own = rowsOf(other, what + ' NA Sr', depth + 1, []);
    const key = JSON.stringify(own);
    if (!shown.has(key)) rows.push(...own);
    shown.add(key);
  }
  return rows;
}
"#;
