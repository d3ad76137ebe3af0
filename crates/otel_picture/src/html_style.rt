//! The style of the page: light and dark, without motion, and on paper.

pub(crate) const STYLE: &str = r#"
:root { color-scheme: light dark; --text: #1b1b1b; --page: #ffffff; --soft: #6a6a6a; --edge: #c9c9c9; --chosen: #dbe9fb;
  --found: #fff3b8; --fault: #b3140c; --s0: #1f5fa8; --s1: #2f7d32; --s2: #8a4fb0; --s3: #b06a00; --s4: #00798c;
  --s5: #6b6b00; --s6: #ad1f6b; --s7: #4a5a78; }
@media (prefers-color-scheme: dark) { :root { --text: #eeeeee; --page: #121212; --soft: #a5a5a5; --edge: #444444;
  --chosen: #1d3a5f; --found: #4f4410; --fault: #ff8a80; --s0: #7fb4f0; --s1: #7fcf85; --s2: #c9a0e8; --s3: #f0b860;
  --s4: #6fd0de; --s5: #cfcf70; --s6: #f090c4; --s7: #a9b9d8; } }
* { box-sizing: border-box; }
[hidden] { display: none !important; }
html, body { height: 100%; margin: 0; }
body { display: flex; flex-direction: column; background: var(--page); color: var(--text);
  font: 13px/20px ui-monospace, monospace; }
button, input { font: inherit; color: inherit; background: var(--page); border: 1px solid var(--edge);
  border-radius: 3px; padding: 2px 8px; }
button { cursor: pointer; }
:focus-visible { outline: 2px solid var(--s0); outline-offset: -2px; }
header { display: flex; flex-wrap: wrap; gap: 8px; align-items: center; padding: 8px 12px;
  border-bottom: 1px solid var(--edge); }
h1 { flex: 1 1 240px; min-width: 0; margin: 0; font-size: 15px; overflow-wrap: anywhere; }
h1 small { color: var(--soft); font-weight: normal; }
input { width: 260px; }
output { min-width: 90px; color: var(--soft); }
main { flex: 1; min-height: 0; display: flex; flex-direction: column; }
.columns { display: flex; flex: 1; min-height: 0; }
.rows { display: flex; flex-direction: column; flex: 1; min-width: 0; min-height: 0; position: relative; }
.lines { flex: 1; min-height: 0; overflow: auto; position: relative; scrollbar-gutter: stable; }
.inner { position: relative; }
.line, .heads { display: flex; width: 100%; height: 24px; line-height: 24px; white-space: pre; }
.line { position: absolute; cursor: default; }
.heads { flex: none; border-bottom: 1px solid var(--edge); color: var(--soft); overflow: hidden;
  scrollbar-gutter: stable; }
.heads button { border: 0; padding: 0; color: inherit; font-weight: bold; }
.chosen { background: var(--chosen); }
.found { background: var(--found); }
.chosen.found { background: var(--chosen); outline: 1px solid var(--soft); outline-offset: -1px; }
.cell { overflow: hidden; text-overflow: ellipsis; padding: 0 6px; flex: 0 0 auto; }
.when { width: 220px; } .what { flex: 1 1 30%; } .long, .spans, .errors { width: 90px; text-align: right; }
.services { flex: 1 1 20%; }
.fault { color: var(--fault); font-weight: bold; }
.soft { color: var(--soft); }
.name { flex: 0 0 40%; display: flex; }
.name span { overflow: hidden; text-overflow: ellipsis; }
.name .soft { flex-shrink: 8; }
.name .fault { flex: none; }
.fold { flex: none; width: 20px; padding: 0; border: 0; background: none; text-align: center; color: var(--soft); }
.time { flex: 1; position: relative; overflow: hidden; border-left: 1px solid var(--edge); touch-action: pan-y;
  user-select: none; }
.bar { position: absolute; top: 6px; height: 12px; min-width: 2px; border-radius: 1px; }
.bar.fault { outline: 2px solid var(--fault); }
.mark { position: absolute; top: 3px; width: 2px; height: 18px; background: var(--text); }
.tick { position: absolute; top: 0; bottom: 0; padding-left: 3px; border-left: 1px solid var(--edge); }
.end { right: 0; padding: 0 3px 0 0; border-left: 0; border-right: 1px solid var(--edge); }
.drag { position: absolute; top: 0; bottom: 0; background: var(--s0); opacity: 0.25; pointer-events: none; }
.s0 { background: var(--s0); } .s1 { background: var(--s1); } .s2 { background: var(--s2); }
.s3 { background: var(--s3); } .s4 { background: var(--s4); } .s5 { background: var(--s5); }
.s6 { background: var(--s6); } .s7 { background: var(--s7); }
.dot { display: inline-block; width: 9px; height: 9px; margin-right: 5px; border-radius: 2px; }
aside { flex: 0 0 400px; max-width: 50%; overflow: auto; padding: 8px 12px; border-left: 1px solid var(--edge); }
aside h2 { font-size: 14px; margin: 0 0 6px; overflow-wrap: anywhere; }
aside h3 { font-size: 13px; margin: 12px 0 2px; color: var(--soft); }
dl { display: grid; grid-template-columns: 90px 1fr; margin: 0; }
dt { color: var(--soft); }
dd, pre { margin: 0; font: inherit; white-space: pre-wrap; overflow-wrap: anywhere; }
pre { padding-left: 12px; }
footer { padding: 4px 12px; border-top: 1px solid var(--edge); color: var(--soft); }
@media (max-width: 800px) { .columns { flex-direction: column; }
  aside { flex: 0 0 45%; max-width: none; border-left: 0; border-top: 1px solid var(--edge); }
  .when, .services { display: none; } }
@media print { html, body { height: auto; } body, main, .columns, .rows { display: block; }
  .lines { overflow: visible; } input, button, footer, output { display: none; } }
"#;
