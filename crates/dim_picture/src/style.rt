//! What all pictures have.

/// The look of each class. The colours are eight that most of the colour-blind can tell apart.
pub const STYLE: &str = "<style>
text{fill:#222222}
.page{fill:#ffffff}
.head{font-size:16px;font-weight:600}
.note{fill:#555555}
.tick{fill:#777777;font-size:10px;text-anchor:middle}
.grid{stroke:#eeeeee}
.rule{fill:#cccccc}
.lane{font-weight:600}
.wait{fill-opacity:.15;stroke-dasharray:4 3}
.l0 .hold,.l0 .wait{fill:#0072b2;stroke:#0072b2}
.l1 .hold,.l1 .wait{fill:#e69f00;stroke:#e69f00}
.l2 .hold,.l2 .wait{fill:#009e73;stroke:#009e73}
.l3 .hold,.l3 .wait{fill:#cc79a7;stroke:#cc79a7}
.l4 .hold,.l4 .wait{fill:#56b4e9;stroke:#56b4e9}
.l5 .hold,.l5 .wait{fill:#d55e00;stroke:#d55e00}
.l6 .hold,.l6 .wait{fill:#f0e442;stroke:#f0e442}
.l7 .hold,.l7 .wait{fill:#666666;stroke:#666666}
.in{font-weight:600}
.l0 .in,.l2 .in,.l5 .in,.l7 .in{fill:#ffffff}
.p0{fill:none}
.p1{fill:url(#p1)}
.p2{fill:url(#p2)}
.p3{fill:url(#p3)}
.free{fill:#222222}
.count{font-size:15px;font-weight:700}
.yield{fill:url(#hatch);stroke:#cc2222}
.sig{fill:#aa1111;font-weight:600;paint-order:stroke;stroke:#ffffff;stroke-width:4px}
.link{stroke:#cc2222;stroke-width:1.5px}
.dot{fill:#cc2222;stroke:#ffffff}
path.miss{stroke:#cc2222;stroke-width:2.5px}
text.miss{fill:#aa1111;font-weight:600}
.end{fill:#222222}
.learn{stroke:#7a1fa2;stroke-width:2px;stroke-dasharray:2 3}
.learnt{fill:#7a1fa2;font-weight:600;text-anchor:middle}
.ring{fill:#ffffff;stroke:#7a1fa2;stroke-width:2.5px}
.break{fill:#7a1fa2;stroke:#ffffff}
</style>
";

/// The patterns of locks and of Yields.
pub const PATTERNS: &str = "<defs>
<pattern id=\"p1\" width=\"8\" height=\"8\" patternUnits=\"userSpaceOnUse\">
<path d=\"M-2 2L2 -2M0 8L8 0M6 10L10 6\" stroke=\"#ffffff\" stroke-width=\"2\"/></pattern>
<pattern id=\"p2\" width=\"8\" height=\"8\" patternUnits=\"userSpaceOnUse\">
<circle cx=\"4\" cy=\"4\" r=\"2\" fill=\"#ffffff\"/></pattern>
<pattern id=\"p3\" width=\"6\" height=\"6\" patternUnits=\"userSpaceOnUse\">
<rect width=\"6\" height=\"2\" fill=\"#ffffff\"/></pattern>
<pattern id=\"hatch\" width=\"8\" height=\"8\" patternUnits=\"userSpaceOnUse\">
<rect width=\"8\" height=\"8\" fill=\"#ffffff\"/>
<path d=\"M-2 2L2 -2M0 8L8 0M6 10L10 6\" stroke=\"#ee9999\" stroke-width=\"3\"/></pattern>
</defs>
";

/// The legend of the kinds of marks.
pub const KINDS: &str = "<g class=\"l7\">
<rect class=\"hold\" x=\"0\" y=\"0\" width=\"28\" height=\"18\"/>
<text class=\"out\" x=\"36\" y=\"13\">holds a lock</text>
<rect class=\"hold\" x=\"160\" y=\"0\" width=\"28\" height=\"18\"/>
<rect class=\"free\" x=\"185\" y=\"0\" width=\"3\" height=\"18\"/>
<text class=\"out\" x=\"196\" y=\"13\">frees it</text>
<rect class=\"wait\" x=\"320\" y=\"0\" width=\"28\" height=\"18\"/>
<text class=\"out\" x=\"356\" y=\"13\">waits for a lock</text>
<rect class=\"yield\" x=\"480\" y=\"0\" width=\"28\" height=\"18\"/>
<text class=\"out\" x=\"516\" y=\"13\">yields</text>
<path class=\"link\" d=\"M654 0V12\"/>
<circle class=\"dot\" cx=\"654\" cy=\"12\" r=\"4\"/>
<text class=\"out\" x=\"676\" y=\"13\">because of a bar</text>
<path class=\"miss\" d=\"M9 30l10 10m0 -10l-10 10\"/>
<text class=\"out\" x=\"36\" y=\"39\">tried in vain</text>
<path class=\"learn\" d=\"M174 26V44\"/>
<circle class=\"ring\" cx=\"174\" cy=\"35\" r=\"5\"/>
<text class=\"out\" x=\"196\" y=\"39\">learns holds</text>
<path class=\"break\" d=\"M334 27l8 8l-8 8l-8 -8z\"/>
<text class=\"out\" x=\"356\" y=\"39\">is let through</text>
<rect class=\"end\" x=\"489\" y=\"30\" width=\"10\" height=\"10\"/>
<text class=\"out\" x=\"516\" y=\"39\">ends</text>
<text class=\"count\" x=\"642\" y=\"40\">+</text>
<text class=\"count\" x=\"658\" y=\"40\">-</text>
<text class=\"out\" x=\"676\" y=\"39\">once more, once less</text>
</g>
";
