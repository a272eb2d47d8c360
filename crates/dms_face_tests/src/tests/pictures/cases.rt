//! Pictures whole, as documents in SVG.

/// The font: a character of two rows and two columns.
pub const FONT: &[u8] = b"font 1 height 2 space 1 line 1 version 0001
glyph 65 2 90
";

/// What a document begins with: its size, its title, and the tag of what it says.
pub const HEAD: &str =
    r##"<svg xmlns="http://www.w3.org/2000/svg" viewBox="-1 -1 5 4" role="img" fill="none" stroke-linecap="round" stroke-width="0.8">
<title>A message sign of 4 by 3 lamps</title>
<desc>"##;

/// What follows: the end of that tag, and the plate of lamps that are dark.
pub const PLATE: &str = r##"</desc>
<path stroke="none" fill="#202020" d="M-1-1h5v4H-1z"/>
<path stroke="#000000" stroke-dasharray="0 1" d="M0 0h3.5M0 1h3.5M0 2h3.5"/>
"##;

/// A page on which the character is lit.
pub const PLAIN: &str =
    r##"<g><path stroke="#000000" stroke-dasharray="0 1" d="M0 0h3.5M0 1h3.5M0 2h3.5"/>
<path stroke="#ffbf00" d="M1 0h0M2 1h0"></path>
</g>
"##;

/// The dark time first: the last three tenths of a second are lit.
pub const FLASHING: &str =
    r##"<g><path stroke="#ff0000" stroke-dasharray="0 1" d="M0 0h3.5M0 1h3.5M0 2h3.5"/>
<path stroke="#ffbf00" d="M1 0h0M2 1h0"><animate attributeName="opacity" calcMode="discrete" repeatCount="indefinite" dur="0.5s" values="0;0;1;1;1"/></path>
</g>
"##;

/// Each page is shown for a tenth of a second, and then none; the second one flashes.
pub const TURNS: &str =
    r##"<g><animate attributeName="opacity" calcMode="discrete" repeatCount="indefinite" dur="0.5s" values="1;0;0;0;0"/><path stroke="#000000" stroke-dasharray="0 1" d="M0 0h3.5M0 1h3.5M0 2h3.5"/>
<path stroke="#ffbf00" d="M1 0h0M2 1h0"></path>
</g>
<g><animate attributeName="opacity" calcMode="discrete" repeatCount="indefinite" dur="0.5s" values="0;0;1;1;0"/><path stroke="#000000" stroke-dasharray="0 1" d="M0 0h3.5M0 1h3.5M0 2h3.5"/>
<path stroke="#00ff00" d="M1 0h0M2 1h0"><animate attributeName="opacity" calcMode="discrete" repeatCount="indefinite" dur="0.5s" values="1;1;1;0;1"/></path>
</g>
"##;
