//! How the classes of a picture look.

/// The style of a picture, without the colours of the processes: of texts `b` bold, `g` grey, `m` of one width, `p` printed, `r`
/// refused, `h` the head, `e` ended where it is, `c` in the middle; of grounds `i` an input, `t` a turn or a note, `x` an end; of lines
/// `l` a life, `k` its end, `a` what was given at once, `cv` what was posted, `o` a timer, with `q` a callback timer, `y` one received
/// late, `d` dots; of memory `j` a column, `z` a block, `v` its name, `u` a paler part of it, `c0` and `c1` that it is in the first or
/// second list of its pool.
pub(crate) const STYLE: &str = "\
svg{font:11px 'DejaVu Sans',Verdana,sans-serif}\
text{fill:#222;white-space:pre;pointer-events:none}\
.b{font-weight:bold}\
.g{fill:#777}\
.m,.p{font-family:'DejaVu Sans Mono',Menlo,monospace}\
.p{fill:#0b6b2b;font-weight:bold}\
.r{fill:#c01818;font-weight:bold}\
.h{font-size:15px;font-weight:bold}\
.e{text-anchor:end}\
.c{text-anchor:middle}\
.w{fill:#fff}\
.i{fill:#e4ecf3}\
.t{fill:#fff}\
.t:hover,.i:hover{fill:#fff3c4}\
.x{fill:#f6d0d0}\
.l{fill:none;stroke-width:1.2;opacity:.55}\
.k{fill:none;stroke-width:3}\
.a{fill:none;stroke:#444;stroke-width:1.3;opacity:.7}\
.o{fill:none;stroke-width:2}\
.q{stroke-dasharray:3 2}\
.y{stroke:#c01818}\
.cv{fill:none;stroke-width:1.3;opacity:.6}\
.d{fill:none;stroke:#ccc;stroke-dasharray:1 4}\
.j{fill:#f7f7f7}\
.z{stroke:#fff;stroke-width:.7}\
.f3{fill:#777}\
.u{fill:#fff;opacity:.45}\
.c0{fill:#000;opacity:.6}\
.c1{fill:#fff;opacity:.75}\
.v{fill:#fff;font-size:9px}";

/// The colours of the processes 4, 5, ..
pub(crate) const COLOURS: [&str; 16] = [
    "#3266ad", "#c0562a", "#3b8a4a", "#8a4fa3", "#b0892a", "#2a93a0", "#b03a6a", "#6b6f2a",
    "#5a5fc0", "#a0522d", "#2f7d6b", "#9a6324", "#7a3f8f", "#4a7ba8", "#a84a4a", "#4f7f2a",
];
