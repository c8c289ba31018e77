//! How pictures look.
ghost use Rattle.std.specs.Prelude.{◌≡◌, ◌≤◌};
ghost use Rattle.w16_picture.specs.Style.{columns_of};

/// How a picture is printed.
#[derive(Clone, Copy, Debug, PartialEq, Eq)]
pub enum Style {
    /// As SVG, a pixel a unit.
    Svg,
    /// As text, a character a unit.
    Text,
}

impl Style {
    /// How many units a strip is wide at least.
    pub fn columns(self) -> u32
        ensures value { result ≡ columns_of self }
        ensures few { result ≤ 960 }
    {
        match self {
            Style::Svg => 960,
            Style::Text => 96,
        }
    }
}

/// What an SVG begins with: its colours, after Okabe and Ito, in light and in dark, and the legend.
pub const HEAD: &str =
    "<svg xmlns='http://www.w3.org/2000/svg' font-family='monospace' font-size='11'>
<style>
svg{background:#fff}
text{fill:#1b1b1b}
rect{stroke:#555;stroke-width:.5}
.free rect{fill:#fff}
.fixed rect{fill:#d55e00}
.moveable rect{fill:#56b4e9}
.discardable rect{fill:#f0e442}
.code rect{fill:#0072b2}
.data rect{fill:#e69f00}
.resource rect{fill:#cc79a7}
.locked rect{stroke:#000;stroke-width:2}
.fixed text,.moveable text,.discardable text,.data text,.resource text{fill:#000}
.code text{fill:#fff}
.heap{fill:#000}
.stays{fill:#888;opacity:.2;stroke:#888}
.moves{fill:#0072b2;opacity:.45;stroke:#003}
.comes{fill:url(#c)}
.goes{fill:url(#g)}
.reply{fill:#0072b2}
.order{fill:#666}
@media(prefers-color-scheme:dark){svg{background:#161616}text{fill:#e8e8e8}.free rect{fill:#2b2b2b}.stays{fill:#aaa}.moves{fill:#56b4e9}.reply{fill:#56b4e9}.order{fill:#aaa}.locked rect{stroke:#fff}}
</style>
<defs>
<linearGradient id='c' x2='0' y2='1'><stop stop-color='#009e73' stop-opacity='0'/><stop offset='1' stop-color='#009e73'/></linearGradient>
<linearGradient id='g' x2='0' y2='1'><stop stop-color='#888'/><stop offset='1' stop-color='#888' stop-opacity='0'/></linearGradient>
</defs>
<g transform='translate(16,10)'>
<g class='fixed'><rect width='70' height='18'/><text x='4' y='13'>fixed</text></g>
<g class='moveable' transform='translate(80)'><rect width='70' height='18'/><text x='4' y='13'>moveable</text></g>
<g class='discardable' transform='translate(160)'><rect width='90' height='18'/><text x='4' y='13'>discardable</text></g>
<g class='moveable locked' transform='translate(260)'><rect width='130' height='18'/><text x='4' y='13'>locked, with count</text></g>
<g class='free' transform='translate(400)'><rect width='70' height='18'/></g><text x='476' y='13'>free</text>
<g transform='translate(520)'><path class='moves' d='M0 0H20L40 18H20z'/><text x='46' y='13'>moves</text></g>
<g transform='translate(620)'><path class='comes' d='M0 0H30V18H0z'/><text x='36' y='13'>comes</text></g>
<g transform='translate(720)'><path class='goes' d='M0 0H30V18H0z'/><text x='36' y='13'>goes</text></g>
</g>
<g transform='translate(16,36)'>
<g class='code'><rect width='70' height='18'/><text x='4' y='13'>code</text></g>
<g class='data' transform='translate(80)'><rect width='70' height='18'/><text x='4' y='13'>data</text></g>
<g class='resource' transform='translate(160)'><rect width='90' height='18'/><text x='4' y='13'>resource</text></g>
<g class='data' transform='translate(260)'><rect width='70' height='18'/><path class='heap' d='M20 8H70v3H20z'/></g><text x='336' y='13'>local heap in it</text>
</g>
";
