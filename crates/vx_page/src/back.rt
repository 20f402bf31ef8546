//! The back of a page: the end of the report, and the script. It is made by page/make.py.

ghost use Rattle.std.specs.Prelude.{◌≡◌, ◌++◌, OnErr, OnOk};
ghost use Rattle.vx_page.specs.Back.{part_1, part_2, part_3, part_4, part_5, part_6, part_7, part_8, part_9, part_10, part_11, part_12, part_13, part_14, part_15, part_16, part_17, part_18, part_19, part_20, part_21, part_22, part_23, part_24, back};

use crate::parts::put_parts;
use std::alloc::AllocError;

#[tactic(auto, unfolding(crate::specs::Back::part_1))]
fn part_1() -> &'static [u8]
    ensures { result.now ≡ part_1 }
{
    br##"</pre>
<script>
'use strict';

// Shows the report that stands in this page: which configurations a choice of options leaves, how they end and what they print.
// Sets of configurations are nodes of a diagram (Bryant 1986): 0 is never, 1 is always, and another node asks one option. A choice has a number
// for each option: 0 is off, 1 is on, and ANY leaves it open.

const ANY = 2;
const MOST_TERMS = 32;
const MOST_STEPS = 500000;
const MOST_LINES = 40;

// ---- Diagrams

// The answer of an operation at two nodes where it needs no further look, and else -1.
const EASY = {
  and: (a, b) => (a === 0 || b === 0 ? 0 : a === 1 ? b : b === 1 || a === b ? a : -1),
  or: (a, b) => (a === 1 || b === 1 ? 1 : a === 0 ? b : b === 0 || a === b ? a : -1),
  minus: (a, b) => (a === 0 || b === 1 || a === b ? 0 : b === 0 ? a : -1),
"##
}

#[tactic(auto, unfolding(crate::specs::Back::part_2))]
fn part_2() -> &'static [u8]
    ensures { result.now ≡ part_2 }
{
    br##"};

class Diagrams {
  constructor(options) {
    this.options = options;
    this.option = [options, options];
    this.low = [0, 0];
    this.high = [0, 1];
    this.known = Array.from({ length: options }, () => new Map());
    this.memo = { and: new Map(), or: new Map(), minus: new Map() };
    this.steps = 0;
  }

  // The node with these parts; there is one.
  node(option, low, high) {
    if (low === high) {
      return low;
    }
    const key = low * 2 ** 26 + high;
    let id = this.known[option].get(key);
"##
}

#[tactic(auto, unfolding(crate::specs::Back::part_3))]
fn part_3() -> &'static [u8]
    ensures { result.now ≡ part_3 }
{
    br##"    if (id === undefined) {
      id = this.option.length;
      this.known[option].set(key, id);
      this.option.push(option);
      this.low.push(low);
      this.high.push(high);
    }
    return id;
  }

  // What a set is where an option is off, and where it is on, if it asks none before.
  parts(id, option) {
    return this.option[id] === option ? [this.low[id], this.high[id]] : [id, id];
  }

  // The set that an operation, named as in EASY, makes of two.
  apply(name, a, b) {
    const easy = EASY[name](a, b);
    if (easy >= 0) {
      return easy;
"##
}

#[tactic(auto, unfolding(crate::specs::Back::part_4))]
fn part_4() -> &'static [u8]
    ensures { result.now ≡ part_4 }
{
    br##"    }
    const key = a * 2 ** 26 + b;
    let id = this.memo[name].get(key);
    if (id === undefined) {
      this.steps++;
      const option = Math.min(this.option[a], this.option[b]);
      const [a0, a1] = this.parts(a, option);
      const [b0, b1] = this.parts(b, option);
      id = this.node(option, this.apply(name, a0, b0), this.apply(name, a1, b1));
      this.memo[name].set(key, id);
    }
    return id;
  }

  // Terms of which one holds in all of the least set and none outside of the greatest, and the set where one does (Minato 1992, Morreale 1970).
  // A term has an option and its value for each literal. There is no answer where it has too many terms or needs too many steps.
  between(least, most) {
    if (least === 0 || most === 1) {
      return { terms: least === 0 ? [] : [[]], set: least === 0 ? 0 : 1 };
    }
"##
}

#[tactic(auto, unfolding(crate::specs::Back::part_5))]
fn part_5() -> &'static [u8]
    ensures { result.now ≡ part_5 }
{
    br##"    if (this.steps > MOST_STEPS) {
      return null;
    }
    const option = Math.min(this.option[least], this.option[most]);
    const [least0, least1] = this.parts(least, option);
    const [most0, most1] = this.parts(most, option);
    const off = this.between(this.apply('minus', least0, most1), most0);
    const on = off && this.between(this.apply('minus', least1, most0), most1);
    const left = on && this.apply('or', this.apply('minus', least0, off.set), this.apply('minus', least1, on.set));
    const rest = on && this.between(left, this.apply('and', most0, most1));
    if (!rest || off.terms.length + on.terms.length + rest.terms.length > MOST_TERMS) {
      return null;
    }
    const asking = (value, terms) => terms.map((term) => [[option, value], ...term]);
    const set = this.node(option, this.apply('or', off.set, rest.set), this.apply('or', on.set, rest.set));
    return { terms: [...asking(0, off.terms), ...asking(1, on.terms), ...rest.terms], set };
  }

  // The nodes below some sets, each behind its parts.
  below(roots) {
"##
}

#[tactic(auto, unfolding(crate::specs::Back::part_6))]
fn part_6() -> &'static [u8]
    ensures { result.now ≡ part_6 }
{
    br##"    const seen = new Set([0, 1]);
    const waiting = [...roots];
    while (waiting.length > 0) {
      const id = waiting.pop();
      if (!seen.has(id)) {
        seen.add(id);
        waiting.push(this.low[id], this.high[id]);
      }
    }
    return [...seen].filter((id) => id > 1).sort((a, b) => a - b);
  }

  // Which of some nodes, each behind its parts, have a setting that a choice allows.
  live(nodes, choice) {
    const live = new Uint8Array(this.option.length);
    live[1] = 1;
    for (const id of nodes) {
      const value = choice[this.option[id]];
      live[id] = (value !== 1 && live[this.low[id]]) || (value !== 0 && live[this.high[id]]) ? 1 : 0;
    }
"##
}

#[tactic(auto, unfolding(crate::specs::Back::part_7))]
fn part_7() -> &'static [u8]
    ensures { result.now ≡ part_7 }
{
    br##"    return live;
  }

  // A function from each of some nodes, each behind its parts, to the number of its settings that a choice allows.
  counting(nodes, choice) {
    const open = [0n];
    for (const value of choice) {
      open.push(open[open.length - 1] + (value === ANY ? 1n : 0n));
    }
    const counts = [0n, 1n];
    const from = (id, option) => counts[id] << (open[this.option[id]] - open[option]);
    for (const id of nodes) {
      const option = this.option[id];
      const low = choice[option] === 1 ? 0n : from(this.low[id], option + 1);
      const high = choice[option] === 0 ? 0n : from(this.high[id], option + 1);
      counts[id] = low + high;
    }
    return (id) => from(id, 0);
  }

"##
}

#[tactic(auto, unfolding(crate::specs::Back::part_8))]
fn part_8() -> &'static [u8]
    ensures { result.now ≡ part_8 }
{
    br##"  // A setting that a set has and a choice allows, off where that may be; a set without one has none.
  example(nodes, set, choice) {
    const live = this.live(nodes, choice);
    if (!live[set]) {
      return null;
    }
    const setting = choice.map((value) => (value === 1 ? 1 : 0));
    for (let id = set; id > 1; ) {
      const option = this.option[id];
      setting[option] = choice[option] !== 1 && live[this.low[id]] ? 0 : 1;
      id = setting[option] ? this.high[id] : this.low[id];
    }
    return setting;
  }
}

// ---- The report

// A text of the report as bytes, each as a character.
function bytesOf(text) {
"##
}

#[tactic(auto, unfolding(crate::specs::Back::part_9))]
fn part_9() -> &'static [u8]
    ensures { result.now ≡ part_9 }
{
    br##"  return text.replace(/\\(..)/g, (_, digits) => String.fromCharCode(parseInt(digits, 16)));
}

function readReport(text) {
  const report = { options: [], pieces: [], ends: [], attempts: [], diagrams: null };
  for (const line of text.split('\n')) {
    const words = line.split(' ');
    const number = Number(words[1]);
    if (words[0] === 'option') {
      report.options.push(words[1]);
    } else if (words[0] === 'limit') {
      report.diagrams = new Diagrams(report.options.length);
    } else if (words[0] === 'node') {
      report.diagrams.node(Number(words[2]), Number(words[3]), Number(words[4]));
    } else if (words[0] === 'out' || words[0] === 'err') {
      report.pieces.push({ stream: words[0], set: number, bytes: bytesOf(line.slice(5 + words[1].length)) });
    } else if (words[0] === 'end') {
      report.ends.push({ set: number, words: words.slice(2).join(' ') });
    } else if (words[0] === 'attempts') {
      report.attempts.push({ set: number, attempts: words[2] });
"##
}

#[tactic(auto, unfolding(crate::specs::Back::part_10))]
fn part_10() -> &'static [u8]
    ensures { result.now ≡ part_10 }
{
    br##"    }
  }
  return report;
}

// The rule of some terms.
function ruleOf(options, terms) {
  const literal = ([option, value]) => (value ? '' : '!') + options[option];
  return terms.length === 0 ? 'false' : terms.map((term) => term.map(literal).join(' & ') || 'true').join(' | ');
}

// Only what a configuration with an end has counts, and of several ends or numbers of attempts the first.
function prepare(report) {
  const { diagrams } = report;
  const firsts = (lines) => {
    let before = 0;
    for (const line of lines) {
      const all = line.set;
      line.set = diagrams.apply('minus', all, before);
      before = diagrams.apply('or', before, all);
"##
}

#[tactic(auto, unfolding(crate::specs::Back::part_11))]
fn part_11() -> &'static [u8]
    ensures { result.now ≡ part_11 }
{
    br##"    }
    return before;
  };
  report.allowed = firsts(report.ends);
  firsts(report.attempts);
  for (const part of [...report.pieces, ...report.attempts]) {
    part.set = diagrams.apply('and', part.set, report.allowed);
  }
  const outside = diagrams.apply('minus', 1, report.allowed);
  for (const end of report.ends) {
    diagrams.steps = 0;
    const found = diagrams.between(end.set, diagrams.apply('or', end.set, outside));
    end.rule = found ? ruleOf(report.options, found.terms) : 'needs more than ' + MOST_TERMS + ' terms';
  }
  report.allowedNodes = diagrams.below([report.allowed]);
  report.nodes = diagrams.below([report.allowed, ...[...report.pieces, ...report.ends, ...report.attempts].map((part) => part.set)]);
}

// ---- What is printed

"##
}

#[tactic(auto, unfolding(crate::specs::Back::part_12))]
fn part_12() -> &'static [u8]
    ensures { result.now ≡ part_12 }
{
    br##"const decoder = new TextDecoder('utf-8', { ignoreBOM: true });

// A line as a text of UTF-8 without its end, with pictures of control characters.
function textOf(bytes) {
  const text = /^[\n\x20-\x7e]*$/.test(bytes) ? bytes : decoder.decode(Uint8Array.from(bytes, (byte) => byte.charCodeAt(0)));
  return text.replace(/\n$/, '').replace(/[\x00-\x08\x0b-\x1f]/g, (control) => String.fromCharCode(0x2400 + control.charCodeAt(0)));
}

// Bytes as lines with their ends; the last one may have none.
function linesOf(bytes) {
  return bytes.match(/[^\n]*\n|[^\n]+$/g) || [];
}

// The pieces of a stream that some configuration of a choice has, those put together that follow one another and are had by the same ones.
function entriesOf(report, stream, count, all) {
  const entries = [];
  for (const piece of report.pieces) {
    const number = piece.stream === stream ? count(piece.set) : 0n;
    const last = entries[entries.length - 1];
    if (number > 0n && last && (last.set === piece.set || (last.number === all && number === all))) {
"##
}

#[tactic(auto, unfolding(crate::specs::Back::part_13))]
fn part_13() -> &'static [u8]
    ensures { result.now ≡ part_13 }
{
    br##"      last.bytes += piece.bytes;
    } else if (number > 0n) {
      entries.push({ set: piece.set, number, bytes: piece.bytes });
    }
  }
  return entries;
}

// What one configuration prints on a stream and how it ends, by the nodes that it is in.
function runOf(report, live) {
  const printed = { out: '', err: '' };
  for (const piece of report.pieces.filter(({ set }) => live[set])) {
    printed[piece.stream] += piece.bytes;
  }
  return { ...printed, end: report.ends.find(({ set }) => live[set]).words };
}

// The lines that some bytes have more than others.
function linesMore(bytes, others) {
  const left = new Map();
"##
}

#[tactic(auto, unfolding(crate::specs::Back::part_14))]
fn part_14() -> &'static [u8]
    ensures { result.now ≡ part_14 }
{
    br##"  for (const line of linesOf(others)) {
    left.set(line, (left.get(line) || 0) + 1);
  }
  return linesOf(bytes).filter((line) => {
    const number = left.get(line) || 0;
    left.set(line, number - 1);
    return number <= 0;
  });
}

// ---- The address

// `A,B` has these options on and the rest off, `-` has none on; with `!A`, `*` or what is no option among them the rest stays open.
function addressOf(report, choice) {
  if (choice.every((value) => value === ANY)) {
    return '';
  }
  const named = (value) => report.options.filter((_, i) => choice[i] === value);
  if (!choice.includes(ANY)) {
    return named(1).join(',') || '-';
"##
}

#[tactic(auto, unfolding(crate::specs::Back::part_15))]
fn part_15() -> &'static [u8]
    ensures { result.now ≡ part_15 }
{
    br##"  }
  const off = named(0).map((name) => '!' + name);
  return [...named(1), ...off, ...(off.length > 0 ? [] : ['*'])].join(',');
}

function choiceOf(report, address) {
  const words = address.split(',');
  const known = ['-', '*', ...report.options];
  const open = words.some((word) => word === '*' || word.startsWith('!') || !known.includes(word));
  return report.options.map((name) => (words.includes('!' + name) ? 0 : words.includes(name) ? 1 : open ? ANY : 0));
}

// ---- The page

const at = (id) => document.getElementById(id);

function element(name, attributes, ...children) {
  const made = document.createElement(name);
  for (const [key, value] of Object.entries(attributes)) {
    made.setAttribute(key, value);
"##
}

#[tactic(auto, unfolding(crate::specs::Back::part_16))]
fn part_16() -> &'static [u8]
    ensures { result.now ≡ part_16 }
{
    br##"  }
  made.append(...children);
  return made;
}

const report = readReport(at('report').textContent);
prepare(report);
const { diagrams } = report;
const everything = diagrams.counting(report.nodes, report.options.map(() => ANY))(report.allowed);
let choice = report.options.map(() => ANY);
let shown = null; // how many configurations of the choice a set has, and how many they are in all

function button(text, label, action) {
  const made = element('button', { type: 'button', 'aria-label': label }, text);
  made.addEventListener('click', action);
  return made;
}

// The switches of an option: three radio buttons.
function switchesOf(name, option) {
"##
}

#[tactic(auto, unfolding(crate::specs::Back::part_17))]
fn part_17() -> &'static [u8]
    ensures { result.now ≡ part_17 }
{
    br##"  const radio = (text, value) => {
    const input = element('input', { type: 'radio', name, value });
    input.addEventListener('change', () => choose(choice.with(option, value)));
    return element('label', {}, input, ' ' + text);
  };
  return element('fieldset', { id: 'option-' + name }, element('legend', {}, name), radio('off', 0), radio('on', 1), radio('any', ANY));
}

function endRow(end) {
  const show = () => choose(diagrams.example(report.nodes, end.set, choice) || diagrams.example(report.nodes, end.set, choice.map(() => ANY)) || choice);
  end.count = element('td', { class: 'number' });
  const example = element('td', {}, button('show one', 'show a configuration that ends ' + end.words, show));
  return element('tr', {}, end.count, element('td', { class: 'words' }, end.words), element('td', { class: 'rule' }, end.rule), example);
}

function showSwitches() {
  report.options.forEach((name, option) => {
    const inputs = at('option-' + name).querySelectorAll('input');
    inputs.forEach((input, value) => {
      input.checked = choice[option] === value;
"##
}

#[tactic(auto, unfolding(crate::specs::Back::part_18))]
fn part_18() -> &'static [u8]
    ensures { result.now ≡ part_18 }
{
    br##"      input.disabled = value !== ANY && !diagrams.live(report.allowedNodes, choice.with(option, value))[report.allowed];
    });
  });
}

function showCounts() {
  const { count, all } = shown;
  const one = all === 1n ? report.ends.find((end) => count(end.set) > 0n) : null;
  at('count').textContent = all + ' of ' + everything + ' configurations' + (one ? ', it ends: ' + one.words : '');
  at('address').textContent = at('address').href = '#' + addressOf(report, choice);
  for (const end of report.ends) {
    const number = count(end.set);
    end.count.textContent = number;
    end.count.parentElement.classList.toggle('none', number === 0n);
  }
  const attempts = report.attempts.filter((line) => count(line.set) > 0n).map((line) => line.attempts);
  at('attempts').textContent = attempts.length === 0 ? '' : 'attempts: ' + [...new Set([attempts[0], attempts[attempts.length - 1]])].join(' to ');
}

// A text in which each place of another one is marked.
"##
}

#[tactic(auto, unfolding(crate::specs::Back::part_19))]
fn part_19() -> &'static [u8]
    ensures { result.now ≡ part_19 }
{
    br##"function marked(text, wanted) {
  const parts = wanted === '' ? [text] : text.split(wanted);
  return parts.flatMap((part, i) => (i === 0 ? [part] : [element('mark', {}, wanted), part]));
}

function outputRow(text, part, share, shared, wanted) {
  const code = element('code', part ? { class: 'part' } : {}, ...marked(text, wanted));
  return element('li', { class: 'line', style: '--share: ' + share + '%' }, code, ...(shared ? [element('small', {}, shared)] : []));
}

function showOutput() {
  const { count, all } = shown;
  const wanted = at('find').value;
  let found = 0;
  for (const stream of ['out', 'err']) {
    const rows = [];
    for (const { number, bytes } of entriesOf(report, stream, count, all)) {
      const share = Number((number * 1000n) / all) / 10;
      for (const line of linesOf(bytes)) {
        const text = textOf(line);
"##
}

#[tactic(auto, unfolding(crate::specs::Back::part_20))]
fn part_20() -> &'static [u8]
    ensures { result.now ≡ part_20 }
{
    br##"        if (text.includes(wanted)) {
          rows.push(outputRow(text, !line.endsWith('\n'), share, number === all ? '' : number + ' of ' + all, wanted));
        }
      }
    }
    found += rows.length;
    at(stream).replaceChildren(...rows);
  }
  at('found').textContent = wanted === '' ? '' : found + ' lines have it';
}

function linesTold(lines, word) {
  return lines.length === 0 ? [] : [lines.length + (lines.length === 1 ? ' line ' : ' lines ') + word];
}

// What changes where one option is flipped, as a part of the list; nothing where nothing does.
function flipOf(now, flipped, option) {
  const then = runOf(report, diagrams.live(report.nodes, flipped));
  const said = then.end === now.end ? [] : ['ends ' + then.end];
  const changes = [];
"##
}

#[tactic(auto, unfolding(crate::specs::Back::part_21))]
fn part_21() -> &'static [u8]
    ensures { result.now ≡ part_21 }
{
    br##"  for (const stream of ['out', 'err']) {
    const more = linesMore(then[stream], now[stream]);
    const less = linesMore(now[stream], then[stream]);
    if (then[stream] !== now[stream]) {
      const words = [...linesTold(more, 'more'), ...linesTold(less, 'less')];
      said.push(stream + ': ' + (words.join(', ') || 'another order'));
    }
    changes.push(...less.map((line) => '\u2212 ' + textOf(line)), ...more.map((line) => '+ ' + textOf(line)));
  }
  if (said.length === 0) {
    return null;
  }
  const name = report.options[option] + (flipped[option] ? ' on' : ' off');
  const choosing = button('choose', 'choose ' + name, () => {
    choose(flipped);
    at('option-' + report.options[option]).querySelector('input:checked').focus();
  });
  const title = name + ': ' + said.join('; ');
  if (changes.length === 0) {
    return element('li', {}, title, ' ', choosing);
"##
}

#[tactic(auto, unfolding(crate::specs::Back::part_22))]
fn part_22() -> &'static [u8]
    ensures { result.now ≡ part_22 }
{
    br##"  }
  const lines = [...changes.slice(0, MOST_LINES), ...(changes.length > MOST_LINES ? ['\u2026'] : [])];
  return element('li', {}, element('details', {}, element('summary', {}, title), element('pre', {}, lines.join('\n'))), choosing);
}

function showFlips() {
  const rows = [];
  const same = [];
  const forbidden = [];
  const single = shown.all === 1n ? diagrams.example(report.nodes, report.allowed, choice) : null;
  const now = single && runOf(report, diagrams.live(report.nodes, single));
  report.options.forEach((name, option) => {
    const flipped = single && single.with(option, 1 - single[option]);
    if (single && !diagrams.live(report.allowedNodes, flipped)[report.allowed]) {
      forbidden.push(name);
    } else if (single) {
      const row = flipOf(now, flipped, option);
      (row ? rows : same).push(row || name);
    }
  });
"##
}

#[tactic(auto, unfolding(crate::specs::Back::part_23))]
fn part_23() -> &'static [u8]
    ensures { result.now ≡ part_23 }
{
    br##"  const notes = [same.length && 'Nothing changes by ' + same.join(', ') + '.', forbidden.length && 'No configuration is left by ' + forbidden.join(', ') + '.'];
  at('flips-note').textContent = single ? notes.filter(Boolean).join(' ') : 'They are shown where one configuration is left.';
  at('flips').replaceChildren(...rows);
}

function show() {
  const count = diagrams.counting(report.nodes, choice);
  shown = { count, all: count(report.allowed) };
  showSwitches();
  showCounts();
  showOutput();
  showFlips();
}

// Each choice is a step in the browser's history.
function choose(next) {
  choice = next;
  show();
  if (addressOf(report, choice) !== location.hash.slice(1)) {
    location.hash = addressOf(report, choice);
"##
}

#[tactic(auto, unfolding(crate::specs::Back::part_24))]
fn part_24() -> &'static [u8]
    ensures { result.now ≡ part_24 }
{
    br##"  }
}

function followAddress() {
  const next = choiceOf(report, location.hash.slice(1));
  if (shown === null || next.some((value, option) => value !== choice[option])) {
    choice = next;
    show();
  }
}

at('switches').append(...report.options.map(switchesOf));
at('ends').append(...report.ends.map(endRow));
at('open').addEventListener('click', () => choose(choice.map(() => ANY)));
at('find').addEventListener('input', showOutput);
window.addEventListener('hashchange', followAddress);
followAddress();
</script>
</body>
</html>
"##
}

/// Puts the whole. Want of memory leaves the text as it was.
pub fn put_back(out: &mut Vec<u8>) -> Result<(), AllocError>
    ensures ok { OnOk result (out.new.items ≡ out.old.items ++ back) }
    ensures err { OnErr result (out.new.items ≡ out.old.items) }
{
    let parts = [
        part_1(),
        part_2(),
        part_3(),
        part_4(),
        part_5(),
        part_6(),
        part_7(),
        part_8(),
        part_9(),
        part_10(),
        part_11(),
        part_12(),
        part_13(),
        part_14(),
        part_15(),
        part_16(),
        part_17(),
        part_18(),
        part_19(),
        part_20(),
        part_21(),
        part_22(),
        part_23(),
        part_24(),
    ];
    put_parts(out, &parts)
}
