//! The look of the pages.

/// The style sheet of all pages.
pub const STYLE: &str =
    r##":root { --ink: #2b2226; --paper: #fbf8f3; --card: #ffffff; --line: #d9d0c5; --edge: #83767c; --wine: #7a1f4d; --on-wine: #ffffff; --leaf: #e7f0df; --on-leaf: #23381a; --red: #a3182a; }
@media (prefers-color-scheme: dark) { :root { --ink: #efe6ea; --paper: #1d171a; --card: #2a2226; --line: #4a3f45; --edge: #9a8b92; --wine: #f0a6c8; --on-wine: #2b0f1e; --leaf: #2c3a24; --on-leaf: #dcebcf; --red: #ff9a9a; } .mark g:nth-of-type(1) { fill: #b8538a; } .mark g:nth-of-type(2) { fill: #f0a6c8; } }
* { box-sizing: border-box; }
html { color: var(--ink); background: var(--paper); font: 1rem/1.5 system-ui, sans-serif; }
body { margin: 0 auto; max-width: 70rem; padding: 0 1rem; }
h1 { font-size: 1.75rem; line-height: 1.2; margin: 1.5rem 0 .5rem; }
a { color: var(--wine); }
:focus-visible { outline: 3px solid var(--wine); outline-offset: 2px; }
main:focus { outline: none; }
.unseen { position: absolute; width: 1px; height: 1px; margin: -1px; overflow: hidden; clip-path: inset(50%); white-space: nowrap; }
.skip { position: absolute; left: 1rem; top: -6rem; z-index: 1; padding: .75rem 1rem; background: var(--card); }
.skip:focus { top: .5rem; }
header { display: flex; flex-wrap: wrap; gap: .25rem 1.5rem; align-items: center; padding: .75rem 0; border-bottom: 3px solid var(--wine); }
.brand { display: flex; align-items: center; gap: .5rem; min-height: 2.75rem; font-size: 1.375rem; font-weight: 700; text-decoration: none; }
.mark { width: 2.25rem; height: 2.25rem; }
nav { display: flex; gap: 1rem; }
nav a, .order a, .ways a, main > p > a { display: inline-flex; align-items: center; min-height: 2.75rem; }
.count { margin-left: .375rem; min-width: 1.75rem; padding: 0 .5rem; border-radius: 1rem; text-align: center; color: var(--on-wine); background: var(--wine); }
.who { margin-left: auto; }
.who p { margin: 0; overflow-wrap: anywhere; }
form { display: flex; flex-wrap: wrap; gap: .5rem; align-items: center; margin: 0; }
input, button { font: inherit; min-height: 2.75rem; border-radius: .375rem; }
input { padding: .25rem .625rem; border: 1px solid var(--edge); color: var(--ink); background: var(--card); }
input[name=quantity] { width: 3.5rem; text-align: center; }
input[name=name] { flex: 1 1 7rem; width: 7rem; max-width: 11rem; }
input[aria-invalid] { border: 2px solid var(--red); scroll-margin-bottom: 6rem; }
button { padding: .25rem 1rem; border: 1px solid var(--wine); font-weight: 600; color: var(--on-wine); background: var(--wine); cursor: pointer; }
button:hover { text-decoration: underline; }
.plain { color: var(--wine); background: transparent; }
ul { list-style: none; margin: 1rem 0; padding: 0; }
.offers { display: grid; gap: 1rem; grid-template-columns: repeat(auto-fill, minmax(15rem, 1fr)); }
.offers > li { display: grid; gap: .5rem; justify-items: start; align-content: start; grid-template-rows: auto 1fr auto auto; padding: 1rem; border: 1px solid var(--line); border-radius: .75rem; background: var(--card); }
.picture { width: 100%; height: 7rem; }
.name { margin: 0; font-size: 1.0625rem; line-height: 1.3; overflow-wrap: anywhere; }
.price { margin: 0; font-weight: 600; }
.lines > li { display: grid; gap: .25rem 1rem; align-items: center; grid-template-columns: 4rem 1fr auto; padding: .75rem 0; border-bottom: 1px solid var(--line); }
.lines .picture { width: 4rem; height: 4rem; }
.lines form { grid-column: 2 / -1; }
.total { text-align: right; font-size: 1.25rem; }
.order { justify-content: flex-end; gap: 1.5rem; }
.said { padding: .75rem 1rem; border-left: 4px solid currentColor; color: var(--on-leaf); background: var(--leaf); overflow-wrap: anywhere; }
.wrong { order: 1; flex-basis: 100%; margin: 0; font-weight: 600; color: var(--red); }
main:has(> .code) { display: flex; flex-direction: column; align-items: flex-start; }
.code { order: -1; margin: 1.5rem 0 -1.25rem; font-size: .875rem; }
footer { margin: 2rem 0 1rem; padding-top: .75rem; border-top: 1px solid var(--line); font-size: .875rem; }
footer p { margin: 0; }
@media (max-width: 40rem) { .who { width: 100%; margin-left: 0; } .lines form { grid-column: 1 / -1; } }
@media print { html { color: #000; background: #fff; } header form, nav, main form, .skip, .node { display: none; } .offers { display: block; } .offers > li { break-inside: avoid; display: block; } .picture { display: none; } .lines > li { grid-template-columns: 1fr auto; } }
"##;
