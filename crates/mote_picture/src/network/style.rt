//! How the classes of a chart look.

/// The style of a chart: of texts `b` bold, `g` grey, `h` the head, `n` a row, `r` a frame that isn't heard, `e` with its end at its point,
/// `c` with its middle there; of areas `w` the ground, `t` a row, `s` what a mote does, `u` rows that are left out, `v` the ground of words,
/// `m` that of the motes' numbers; of lines `d` a lane, `k` a moment, `a` a frame that is heard, `x` one that isn't, `o` one from outside,
/// `q` one that is under way.
pub(crate) const STYLE: &str = "\
svg{font:10px 'DejaVu Sans',Verdana,sans-serif}\
text{fill:#222;white-space:pre;pointer-events:none}\
.b{font-weight:bold}\
.g{fill:#777}\
.h{font-size:15px;font-weight:bold}\
.r{fill:#c01818}\
.e{text-anchor:end}\
.c{text-anchor:middle}\
.w{fill:#fff}\
.u{fill:#f0eadf}\
.m{fill:#eef2f6}\
.v{fill:#fff;fill-opacity:.85;pointer-events:none}\
.t{fill:#fff;fill-opacity:0}\
.t:hover{fill:#fff3c4;fill-opacity:.6}\
.s{fill:#3266ad}\
.d{fill:none;stroke:#999}\
.k{fill:none;stroke:#e4ecf3}\
.a{fill:none;stroke:#3b8a4a;stroke-width:1.4}\
.x{fill:none;stroke:#c01818;stroke-width:1.4}\
.q{fill:none;stroke:#3b8a4a;stroke-dasharray:4 3}\
.o{fill:none;stroke:#8a4fa3;stroke-width:1.4}";
