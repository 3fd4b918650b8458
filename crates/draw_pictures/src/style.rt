//! The style of a picture, its legend, and what stands between an operation and its reply.

/// Before a reply, and the space before that.
pub const ARROW: &str = " →";

/// The same without the space.
pub const TIP: &str = "→";

/// Colours for a light and for a dark page.
pub const STYLE: &str = "<style>\n\
     text{font:11px ui-monospace,SFMono-Regular,Menlo,Consolas,'DejaVu Sans Mono',monospace;fill:#24292f}\n\
     .page{fill:#ffffff}\n\
     .lane{fill:#f5f7f9}\n\
     .axis{fill:#d0d7de}\n\
     .head,.side{font-weight:bold}\n\
     .head{text-anchor:middle}\n\
     .row,.name,.clock{text-anchor:end}\n\
     .row,.name,.note{fill:#8a939c}\n\
     .clock{font-weight:bold}\n\
     .tick{fill:#2da35b}\n\
     .closed{fill:#f0b429;fill-opacity:0.22}\n\
     .installed{fill:#8250df}\n\
     .attempt{fill:#ffffff;stroke:#9aa4ae;stroke-width:1.5}\n\
     .attempt.begin{stroke-dasharray:4 3}\n\
     .attempt.commit{fill:#e4f6ea;stroke:#2da35b}\n\
     .attempt.read{fill:#e3f1fd;stroke:#3b8ed0}\n\
     .attempt.cancel{fill:#eceff2;stroke:#7d8790}\n\
     .attempt.conflict{fill:#fdebe9;stroke:#d6493b}\n\
     .attempt.full{fill:#fdf0dd;stroke:#cf7a17}\n\
     .sure{fill:#8250df}\n\
     .turn{fill:#8a939c}\n\
     .box{fill:#ffffff;stroke:#d0d7de}\n\
     .box.wait{fill:#fff4cf;stroke:#e0b83c}\n\
     .box.commit{fill:#2da35b;stroke:#2da35b}\n\
     .box.read{fill:#3b8ed0;stroke:#3b8ed0}\n\
     .box.cancel{fill:#7d8790;stroke:#7d8790}\n\
     .box.conflict{fill:#d6493b;stroke:#d6493b}\n\
     .box.full{fill:#cf7a17;stroke:#cf7a17}\n\
     .box.irrev,.box.install{fill:#8250df;stroke:#8250df}\n\
     .box.gate{fill:#f0b429;stroke:#f0b429}\n\
     .box.idle{fill:none;stroke:none}\n\
     .box.finish{fill:#e6eaee;stroke:none}\n\
     .label.commit,.label.read,.label.cancel,.label.conflict,.label.full,.label.irrev,.label.install{fill:#ffffff}\n\
     .label.gate{fill:#24292f}\n\
     .label.idle{fill:#8a939c}\n\
     @media (prefers-color-scheme:dark){\n\
     text{fill:#dde3e9}\n\
     .page{fill:#0d1117}\n\
     .lane{fill:#151b23}\n\
     .axis{fill:#3d444d}\n\
     .row,.name,.note{fill:#7d8790}\n\
     .closed{fill:#f0b429;fill-opacity:0.18}\n\
     .attempt{fill:#10161d;stroke:#6b7580}\n\
     .attempt.commit{fill:#12291c;stroke:#2da35b}\n\
     .attempt.read{fill:#10243a;stroke:#3b8ed0}\n\
     .attempt.cancel{fill:#1e242b;stroke:#7d8790}\n\
     .attempt.conflict{fill:#331a18;stroke:#e5604f}\n\
     .attempt.full{fill:#33240f;stroke:#cf7a17}\n\
     .box{fill:#1b222b;stroke:#3d444d}\n\
     .box.wait{fill:#4a3c0c;stroke:#a98622}\n\
     .box.finish{fill:#262d36}\n\
     .label.gate{fill:#24292f}\n\
     }\n\
     </style>\n";

/// What the colours mean: two rows of five.
pub const LEGEND: &str =
    "<rect class='attempt commit' x='0' y='0' width='22' height='14' rx='4'/><text class='note' x='30' y='11'>committed</text>\n\
     <rect class='attempt read' x='130' y='0' width='22' height='14' rx='4'/><text class='note' x='160' y='11'>read only</text>\n\
     <rect class='attempt cancel' x='260' y='0' width='22' height='14' rx='4'/><text class='note' x='290' y='11'>cancelled</text>\n\
     <rect class='attempt conflict' x='390' y='0' width='22' height='14' rx='4'/><text class='note' x='420' y='11'>conflict</text>\n\
     <rect class='box wait' x='520' y='0' width='22' height='14' rx='4'/><text class='note' x='550' y='11'>call again</text>\n\
     <rect class='attempt full' x='0' y='24' width='22' height='14' rx='4'/><text class='note' x='30' y='35'>full</text>\n\
     <rect class='attempt begin' x='130' y='24' width='22' height='14' rx='4'/><text class='note' x='160' y='35'>not ended</text>\n\
     <rect class='sure' x='260' y='24' width='6' height='14' rx='3'/><text class='note' x='290' y='35'>irrevocable</text>\n\
     <rect class='closed' x='390' y='24' width='22' height='14' rx='4'/><text class='note' x='420' y='35'>gate closed</text>\n\
     <rect class='installed' x='520' y='30' width='22' height='2'/><text class='note' x='550' y='35'>installed</text>\n";
