//! The begin of the document, with its colours.
use crate::ink::put_escaped;
use gup_base::NoMemory;
use gup_scene::Scene;
use std::fmt::Write;

/// How many colours actors have: then they come again.
pub(crate) const HUES: usize = 10;

/// Sizes, and the colours on a light ground and on a dark one. Classes: `g` the ground; `t0` to `t9` an actor's text, `c0` to `c9`
/// its marks, `r0` to `r9` its rail; `e` an event, `q` a quiet step, `w` a wait, `a` an answer, `x` what can't be; `sf` to `sr` what
/// is so, and `bf` to `br` the bars beside it; `ls` and `lt` the locks.
const STYLE: &str = "<style>
svg{color-scheme:light dark;font:13px ui-monospace,SFMono-Regular,Menlo,Consolas,'DejaVu Sans Mono','Liberation Mono',monospace}
text{fill:#1f2328;white-space:pre}
.g{fill:#ffffff}.h{font-weight:600}.m,.q,.w{fill:#59636e}.q{font-style:italic}.a,.n{font-weight:700}
.k,.l{font-size:11px}.l{fill:#59636e;text-anchor:end}.s{font-size:11px}
.u{stroke:#d1d9e0;stroke-width:1}
.ls{fill:#24292f}.lt{fill:#e0a800}
.x{fill:#b3261e;font-weight:700}.xb{fill:#ffebe9;fill-opacity:.8;stroke:#cf222e;stroke-width:2}.xc{stroke:#cf222e;stroke-width:3;fill:none}
.after{opacity:.55}
.rail{stroke-width:2;opacity:.35}.line{stroke-width:1;opacity:.4}
.hollow{fill:#ffffff;stroke-width:2}circle,path{stroke:#ffffff;stroke-width:1.5}
.sf{fill:#0b6e70}.sw{fill:#5a45b0}.ss{fill:#8a4f00}.sp{fill:#2b6e34}.sr{fill:#59636e;font-style:italic}
.bar{opacity:.55}
.c0{fill:#0b62d6}.c1{fill:#b35900}.c2{fill:#1a7f37}.c3{fill:#bf3989}.c4{fill:#7a3ef0}
.c5{fill:#0a7a83}.c6{fill:#6e7700}.c7{fill:#8f5a2a}.c8{fill:#51606f}.c9{fill:#3f51b5}
.r0{stroke:#0b62d6}.r1{stroke:#b35900}.r2{stroke:#1a7f37}.r3{stroke:#bf3989}.r4{stroke:#7a3ef0}
.r5{stroke:#0a7a83}.r6{stroke:#6e7700}.r7{stroke:#8f5a2a}.r8{stroke:#51606f}.r9{stroke:#3f51b5}
@media (prefers-color-scheme:dark){
text{fill:#e6edf3}.g{fill:#0d1117}.m,.q,.w,.l{fill:#9aa5b1}.u{stroke:#30363d}
.ls{fill:#dfe5ec}.lt{fill:#f0c33c}
.x{fill:#ff8f87}.xb{fill:#3a1214;stroke:#f85149}.xc{stroke:#f85149}
.rail{opacity:.45}.hollow{fill:#0d1117}circle,path{stroke:#0d1117}
.sf{fill:#63cdd0}.sw{fill:#b7abff}.ss{fill:#efb273}.sp{fill:#86d191}.sr{fill:#9aa5b1}
.c0{fill:#6cb0ff}.c1{fill:#ffa657}.c2{fill:#57c76f}.c3{fill:#ff8cc8}.c4{fill:#b79bff}
.c5{fill:#4cc9d4}.c6{fill:#d3d34a}.c7{fill:#dba97a}.c8{fill:#a9b7c6}.c9{fill:#97a3ff}
.r0{stroke:#6cb0ff}.r1{stroke:#ffa657}.r2{stroke:#57c76f}.r3{stroke:#ff8cc8}.r4{stroke:#b79bff}
.r5{stroke:#4cc9d4}.r6{stroke:#d3d34a}.r7{stroke:#dba97a}.r8{stroke:#a9b7c6}.r9{stroke:#97a3ff}
}
</style>
";

/// The document's first lines: its size, its title, its style and its ground.
pub(crate) fn open(
    scene: &Scene,
    width: usize,
    height: usize,
    svg: &mut String,
) -> Result<(), NoMemory> {
    write!(
        svg,
        "<svg xmlns='http://www.w3.org/2000/svg' width='{width}' height='{height}' viewBox='0 0 {width} {height}'>\n<title>"
    )?;
    put_title(scene, svg)?;
    svg.push_str("</title>\n")?;
    svg.push_str(STYLE)?;
    svg.push_str("<rect class='g' width='100%' height='100%'/>\n")?;
    Ok(())
}

fn put_title(scene: &Scene, svg: &mut String) -> Result<(), NoMemory> {
    match scene.head.first() {
        Some(line) => put_escaped(line.as_slice(), svg),
        None => put_escaped(b"A trace", svg),
    }
}
