//! The front of a page: all that stands before the report. It is made by page/make.py.

ghost use Rattle.std.specs.Prelude.{◌≡◌, ◌++◌, OnErr, OnOk};
ghost use Rattle.vx_page.specs.Front.{part_1, part_2, part_3, part_4, part_5, part_6, part_7, part_8, front};

use crate::parts::put_parts;
use std::alloc::AllocError;

#[tactic(auto, unfolding(crate::specs::Front::part_1))]
fn part_1() -> &'static [u8]
    ensures { result.now ≡ part_1 }
{
    br##"<!doctype html>
<html lang="en">
<head>
<meta charset="utf-8">
<meta name="viewport" content="width=device-width, initial-scale=1">
<title>varexj report</title>
<style>
:root {
  color-scheme: light dark;
  --paper: #ffffff;
  --ink: #1a1c20;
  --faint: #5a606b;
  --rule: #c9ced6;
  --shade: #9cc3f0;
  --strong: #0b57a8;
  --found: #ffe08a;
}
@media (prefers-color-scheme: dark) {
  :root {
    --paper: #14161a;
"##
}

#[tactic(auto, unfolding(crate::specs::Front::part_2))]
fn part_2() -> &'static [u8]
    ensures { result.now ≡ part_2 }
{
    br##"    --ink: #eceef2;
    --faint: #a9b0bc;
    --rule: #3c424d;
    --shade: #1f4f86;
    --strong: #8ec1ff;
    --found: #6b5200;
  }
}
* { box-sizing: border-box; }
body {
  margin: 0 auto;
  max-width: 1500px;
  padding: 0 1rem 2rem;
  background: var(--paper);
  color: var(--ink);
  font: 1rem/1.45 system-ui, sans-serif;
}
header {
  position: sticky;
  top: 0;
"##
}

#[tactic(auto, unfolding(crate::specs::Front::part_3))]
fn part_3() -> &'static [u8]
    ensures { result.now ≡ part_3 }
{
    br##"  z-index: 1;
  display: flex;
  flex-wrap: wrap;
  gap: 0 1.5rem;
  align-items: baseline;
  padding: .4rem 0;
  background: var(--paper);
  border-bottom: 1px solid var(--rule);
}
h1 { margin: 0; font-size: 1.1rem; }
h2 { margin: 1.2rem 0 .3rem; font-size: 1rem; }
h3 { margin: .6rem 0 .2rem; font-size: .9rem; }
p { margin: .2rem 0; }
#count { font-weight: 600; }
#address, code, .line, td.words { font-family: ui-monospace, monospace; font-size: .875rem; overflow-wrap: anywhere; }
a { color: var(--strong); }
button, input[type=search] {
  font: inherit;
  color: inherit;
  background: var(--paper);
"##
}

#[tactic(auto, unfolding(crate::specs::Front::part_4))]
fn part_4() -> &'static [u8]
    ensures { result.now ≡ part_4 }
{
    br##"  border: 1px solid var(--faint);
  border-radius: 4px;
  padding: .15rem .5rem;
}
input[type=search] { width: 100%; max-width: 24rem; }
button { cursor: pointer; white-space: nowrap; }
:focus-visible { outline: 3px solid var(--strong); outline-offset: 1px; }
small, .none { color: var(--faint); }
fieldset {
  display: flex;
  flex-wrap: wrap;
  gap: 0 .7rem;
  align-items: baseline;
  min-width: 0;
  margin: 0;
  padding: .2rem 0;
  border: 0;
  border-bottom: 1px solid var(--rule);
}
legend { float: left; min-width: 8rem; padding: 0; font-weight: 600; overflow-wrap: anywhere; }
"##
}

#[tactic(auto, unfolding(crate::specs::Front::part_5))]
fn part_5() -> &'static [u8]
    ensures { result.now ≡ part_5 }
{
    br##"label { white-space: nowrap; }
label:has(:disabled) { color: var(--faint); text-decoration: line-through; }
table { width: 100%; border-collapse: collapse; }
th, td { padding: .2rem .6rem .2rem 0; text-align: left; vertical-align: baseline; border-bottom: 1px solid var(--rule); }
td.number { text-align: right; font-variant-numeric: tabular-nums; }
td.rule { overflow-wrap: anywhere; }
ol, ul { margin: 0; padding: 0; list-style: none; }
.line {
  display: flex;
  gap: .8rem;
  justify-content: space-between;
  padding: 0 .4rem;
  border-left: 3px solid var(--strong);
  background: color-mix(in srgb, var(--shade) var(--share), transparent);
  content-visibility: auto;
  contain-intrinsic-height: auto 1.25rem;
}
.line code { white-space: pre-wrap; min-height: 1.25rem; }
.line code.part::after { content: "\2026"; }
.line small { color: var(--ink); white-space: nowrap; }
"##
}

#[tactic(auto, unfolding(crate::specs::Front::part_6))]
fn part_6() -> &'static [u8]
    ensures { result.now ≡ part_6 }
{
    br##"mark { background: var(--found); color: inherit; }
#flips li { padding: .2rem 0; border-bottom: 1px solid var(--rule); }
#flips pre { margin: .2rem 0; white-space: pre-wrap; overflow-wrap: anywhere; font-size: .875rem; }
summary { cursor: pointer; }
@media (max-width: 599px) {
  thead { display: none; }
  #ends tr { display: grid; grid-template-columns: 1fr auto; border-bottom: 1px solid var(--rule); }
  #ends td { padding: .1rem 0; border: 0; text-align: left; }
  #ends .words, #ends .rule { order: 1; grid-column: 1 / -1; }
  .rule::before { content: "when "; }
}
@media (min-width: 600px) {
  .streams { display: grid; grid-template-columns: 1fr; }
  main { display: grid; grid-template-columns: minmax(19rem, 24rem) minmax(0, 1fr); gap: 0 2rem; }
  #options { grid-row: 1 / span 4; }
}
@media (min-width: 900px) {
  .streams { grid-template-columns: minmax(0, 2fr) minmax(0, 1fr); gap: 0 1.5rem; }
}
</style>
"##
}

#[tactic(auto, unfolding(crate::specs::Front::part_7))]
fn part_7() -> &'static [u8]
    ensures { result.now ≡ part_7 }
{
    br##"</head>
<body>
<header>
<h1>varexj report</h1>
<p id="count" role="status" aria-live="polite"></p>
<p><a id="address" href="#">#</a></p>
</header>
<noscript><p>This page needs JavaScript. The report stands at its end, as text.</p></noscript>
<main>
<section id="options" aria-labelledby="options-title">
<h2 id="options-title">Options</h2>
<p><button type="button" id="open">leave all open</button></p>
<div id="switches"></div>
</section>
<section aria-labelledby="ends-title">
<h2 id="ends-title">Ends</h2>
<table>
<thead><tr><th scope="col">configurations</th><th scope="col">end</th><th scope="col">when</th><th scope="col">example</th></tr></thead>
<tbody id="ends"></tbody>
</table>
"##
}

#[tactic(auto, unfolding(crate::specs::Front::part_8))]
fn part_8() -> &'static [u8]
    ensures { result.now ≡ part_8 }
{
    br##"<p id="attempts"></p>
</section>
<section aria-labelledby="output-title">
<h2 id="output-title">Output</h2>
<p><label for="find">find a text</label> <input type="search" id="find" autocomplete="off" spellcheck="false"></p>
<p id="found" role="status" aria-live="polite"></p>
<div class="streams">
<div><h3 id="out-title">out</h3><ol id="out" aria-labelledby="out-title"></ol></div>
<div><h3 id="err-title">err</h3><ol id="err" aria-labelledby="err-title"></ol></div>
</div>
</section>
<section aria-labelledby="flips-title">
<h2 id="flips-title">Flips: what one switch changes</h2>
<p id="flips-note"></p>
<ul id="flips"></ul>
</section>
</main>
<pre id="report" hidden>
"##
}

/// Puts the whole. Want of memory leaves the text as it was.
pub fn put_front(out: &mut Vec<u8>) -> Result<(), AllocError>
    ensures ok { OnOk result (out.new.items ≡ out.old.items ++ front) }
    ensures err { OnErr result (out.new.items ≡ out.old.items) }
{
    let parts = [
        part_1(),
        part_2(),
        part_3(),
        part_4(),
        part_5(),
        part_6(),
        part_7(),
        part_8(),
    ];
    put_parts(out, &parts)
}
