//! The page's style: `crates/mote_picture/web/page.css`, as `scripts/page-template` writes it here.

/// The whole style.
pub(crate) const STYLE: &str = r#":root {
  color-scheme: light dark;
  --ground: #fff; --ink: #1c1c1c; --soft: #6b6b6b; --edge: #d8d8d8; --input: #e4ecf3; --chosen: #fff0b8; --hover: #f4f4f4; --end: #f6d0d0;
  --bad: #b81414; --printed: #0b6b2b; --marked: #2f6fb5;
  --p3: #777; --p4: #3266ad; --p5: #c0562a; --p6: #3b8a4a; --p7: #8a4fa3; --p8: #b0892a; --p9: #2a93a0; --p10: #b03a6a; --p11: #6b6f2a;
  --p12: #5a5fc0; --p13: #a0522d; --p14: #2f7d6b; --p15: #9a6324; --p16: #7a3f8f; --p17: #4a7ba8; --p18: #a84a4a; --p19: #4f7f2a;
}
@media (prefers-color-scheme: dark) {
  :root {
    --ground: #16181b; --ink: #e6e6e6; --soft: #9a9fa6; --edge: #3a3f45; --input: #1e2c3a; --chosen: #4a4116; --hover: #22262b; --end: #4a2020;
    --bad: #ff7b72; --printed: #6fd08c; --marked: #79b0ee;
    --p3: #a0a0a0; --p4: #7fb0f5; --p5: #f0946a; --p6: #79cf8a; --p7: #c893e0; --p8: #e0bb5c; --p9: #66cfdc; --p10: #f07fab; --p11: #b8bd62;
    --p12: #9ca1ff; --p13: #d98e66; --p14: #6fc7b2; --p15: #d8a05c; --p16: #bd85d4; --p17: #8dbde8; --p18: #ea8f8f; --p19: #97cc6c;
  }
}
* { box-sizing: border-box; }
html, body { height: 100%; margin: 0; }
body { display: grid; grid-template-rows: auto minmax(0, 1fr); background: var(--ground); color: var(--ink); font: 13px/1.35 system-ui, "DejaVu Sans", sans-serif; }
header { padding: 6px 12px 0; border-bottom: 1px solid var(--edge); min-width: 0; }
h1 { margin: 0; font-size: 15px; overflow-wrap: anywhere; max-height: 3em; overflow: auto; }
h2 { margin: 12px 0 4px; font-size: 13px; }
h2:first-child { margin-top: 0; }
header p { margin: 2px 0; color: var(--soft); overflow-wrap: anywhere; }
#faults { color: var(--bad); font-weight: 600; }
#faults:empty { display: none; }
#filters { display: flex; flex-wrap: wrap; align-items: center; gap: 4px 12px; margin: 4px 0; }
#processes { display: flex; flex-wrap: wrap; gap: 2px 10px; max-height: 5em; overflow: auto; }
label { cursor: pointer; white-space: nowrap; max-width: 16em; overflow: hidden; text-overflow: ellipsis; }
#find { width: 13em; max-width: 100%; font: inherit; padding: 1px 6px; }
button { font: inherit; }
#count, summary { color: var(--soft); }
summary { cursor: pointer; }
#legend ul { margin: 4px 0; padding-left: 18px; max-height: 34vh; overflow: auto; }
kbd { border: 1px solid var(--edge); border-radius: 3px; padding: 0 4px; font: 11px "DejaVu Sans Mono", monospace; }
#whole-run { position: relative; margin: 4px 0; overflow: hidden; }
#whole-run i { position: absolute; top: 0; bottom: 0; pointer-events: none; }
#overview { display: block; width: 100%; touch-action: none; cursor: crosshair; }
#seen, #part { background: var(--marked); opacity: .2; }
#cursor { background: var(--ink); }
main { display: grid; grid-template-columns: minmax(0, 1fr) 330px; min-height: 0; }
#view { display: grid; grid-template-rows: auto minmax(0, 1fr); min-width: 0; min-height: 0; }
#heads, .row { display: grid; grid-template-columns: 58px 62px var(--lanes) minmax(0, 1fr); white-space: nowrap; }
#heads .words { overflow: hidden; }
#heads { border-bottom: 1px solid var(--edge); color: var(--soft); padding-right: 14px; }
#lane-heads { position: relative; }
#lane-heads b { position: absolute; transform: translateX(-50%); font-size: 11px; }
#rows { overflow-y: scroll; overflow-x: hidden; position: relative; }
#rows:focus-visible { outline: none; }
#rows:focus-visible .chosen { box-shadow: inset 4px 0 var(--marked); }
#space { position: relative; min-height: 100%; }
#lanes { position: absolute; pointer-events: none; left: 120px; overflow: visible; z-index: 1; }
#lanes [data-hint] { pointer-events: auto; }
.row { position: absolute; left: 0; right: 0; height: 18px; line-height: 18px; cursor: default; }
.row:hover { background: var(--hover); }
.row.input { background: var(--input); }
.row.end { background: var(--end); }
.row.chosen { background: var(--chosen); }
.number, .clock { text-align: right; padding-right: 8px; font-variant-numeric: tabular-nums; overflow: hidden; }
.number, .told, .wait { color: var(--soft); }
.clock { font-weight: 600; }
.words { overflow: hidden; text-overflow: ellipsis; white-space: pre; padding-left: 6px; }
.words b { display: inline-block; min-width: 2.2em; }
.refused, .late, .ending { color: var(--bad); font-weight: 600; }
.print { color: var(--printed); font-family: "DejaVu Sans Mono", monospace; font-size: 12px; font-weight: 600; }
#panel { border-left: 1px solid var(--edge); overflow: auto; padding: 8px 12px; overflow-wrap: anywhere; }
#panel code { font: 12px "DejaVu Sans Mono", monospace; }
#panel ol, #panel ul { margin: 2px 0; padding-left: 18px; }
#panel .none { color: var(--soft); }
.region { position: relative; height: 18px; border: 1px solid var(--edge); overflow: hidden; }
.region i { position: absolute; top: 0; bottom: 0; border-right: 1px solid var(--ground); font: 10px/16px sans-serif; text-align: center; color: var(--ground); overflow: hidden; }
.region i u { position: absolute; top: 0; bottom: 0; background: var(--ground); opacity: .45; }
.pool { display: grid; grid-template-columns: repeat(16, 1fr); gap: 1px; margin: 2px 0; }
.pool i { height: 14px; background: var(--edge); font: 9px/14px sans-serif; text-align: center; color: var(--ground); opacity: .45; }
.pool i.used { opacity: 1; }
.pool i.linked { outline: 2px solid var(--ink); outline-offset: -2px; }
@media (max-width: 760px) {
  body { grid-template-rows: auto minmax(0, 1fr); }
  header { max-height: 55vh; overflow: auto; }
  main { grid-template-columns: minmax(0, 1fr); grid-template-rows: minmax(0, 3fr) minmax(0, 2fr); }
  #panel { border-left: 0; border-top: 1px solid var(--edge); }
  #heads, .row { grid-template-columns: 46px 46px var(--lanes) minmax(0, 1fr); }
  #lanes { left: 92px; }
  #lane-heads b { font-size: 9px; }
}
"#;
