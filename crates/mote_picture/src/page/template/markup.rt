//! A page without its data, its style and its script: `crates/mote_picture/web/page.html`, as `scripts/page-template` writes it here.

/// What stands before the style.
pub(crate) const HEAD: &str = r#"<!doctype html>
<html lang="en">
<head>
<meta charset="utf-8">
<meta name="viewport" content="width=device-width, initial-scale=1">
<title>A run of a mote</title>
<style>
"#;

/// What stands between the style and the data.
pub(crate) const BODY: &str = r#"</style>
</head>
<body>
<header>
<h1 id="title"></h1>
<p id="tally"></p>
<p id="faults" role="alert"></p>
<form id="filters">
<span id="processes"></span>
<label><input type="checkbox" id="inputs" checked> inputs and notes</label>
<label><input type="checkbox" id="refused"> refusals only</label>
<input type="search" id="find" placeholder="words, as timer 0a0b" aria-label="words that lines have">
<button type="button" id="whole">whole run</button>
<span id="count" role="status"></span>
</form>
<details id="legend">
<summary>legend and keys</summary>
<ul>
<li>A lane for each process: a thin line while it is there, a bar while it is in an activation. An arrow is what one gives another at once; a curve
leads from the post of an event to where it is told.</li>
<li>Left of a lane a line for each event timer from where it is armed to where it is told, right of it for each callback timer, with dashes. Red is
late.</li>
<li>A blue ground is an input, red words a refusal; green is printed. The grey number is the line's own in the transcript, the other one the clock,
where it changes.</li>
<li>The overview goes by the clock: each tick is as wide as any other, and the lines at one clock stand side by side in it. Red marks below are
refusals, blue ones above inputs. Drag over it to see a part alone, click to go there, turn the wheel to zoom.</li>
<li>On the right: what holds once the chosen line's call is carried out. The queue shows what applications posted: the kernel's own events have no
line before they are told. Where managed blocks lie shows in no call, so they stand in the order in which they were made.</li>
<li><kbd>&uarr;</kbd> <kbd>&darr;</kbd> a line, <kbd>&larr;</kbd> <kbd>&rarr;</kbd> the last or next line of this process, <kbd>i</kbd> <kbd>I</kbd> the
next or last input, <kbd>n</kbd> <kbd>N</kbd> the next or last refusal, <kbd>Home</kbd> <kbd>End</kbd> <kbd>PgUp</kbd> <kbd>PgDn</kbd>,
<kbd>+</kbd> <kbd>-</kbd> zoom, <kbd>0</kbd> the whole run, <kbd>/</kbd> words</li>
</ul>
</details>
<div id="whole-run"><canvas id="overview" aria-label="the run by its clock"></canvas><i id="seen"></i><i id="part"></i><i id="cursor"></i></div>
</header>
<main>
<section id="view">
<div id="heads"><span class="number">line</span><span class="clock">clock</span><span id="lane-heads"></span><span class="words">received &rarr; call = reply</span></div>
<div id="rows" tabindex="0" role="listbox" aria-label="lines of the transcript"><div id="space"><svg id="lanes" aria-hidden="true"></svg></div></div>
</section>
<aside id="panel" aria-live="polite"></aside>
</main>
<script id="data" type="application/json">"#;

/// What stands between the data and the script.
pub(crate) const FOOT: &str = r#"</script>
<script>
"#;

/// What follows the script.
pub(crate) const END: &str = r#"</script>
</body>
</html>
"#;
