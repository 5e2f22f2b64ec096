// What stands in every page: the head, the shapes of the boxes, the legend, and what stands around
// the listing. The words hold no quotes but single ones.

use console::System;

// Words to standard output.
fn write(rt: &impl System, words: &[u8]) -> bool {
    console::put(rt, b"scope", words, words.len())
}

// The title and the style: no page cuts a strip, or a heading from its strips; on a narrow screen
// figures are larger.
fn put_style(rt: &impl System) -> bool {
    write(
        rt,
        b"<!DOCTYPE html>\n<html lang='en'><head><meta charset='utf-8'/><meta name='viewport' content='width=device-width, initial-scale=1'/><title>A line</title><style>
body{font:16px/1.5 sans-serif;color:#000;background:#fff;max-width:1130px;margin:0 auto;padding:0 8px}
h1{font-size:22px;margin:8px 0}h2{font-size:16px;margin:16px 0 0;break-after:avoid}p{margin:8px 0;break-after:avoid}pre{white-space:pre-wrap}
svg{display:block;width:100%;break-inside:avoid}.h{position:absolute;width:0;height:0}text{font-size:9px}@media(max-width:600px){text{font-size:12px}}
.i{display:inline-block;margin-right:14px}.i svg{display:inline-block;width:auto;height:44px;vertical-align:middle;margin-right:4px}
.w{fill:none;stroke:#000}.e{fill:#eee}.s{fill:#a9cdff}.r{fill:#fff59a}.x{fill:#ffbf80}.y{fill:#b9e8ae}.z{fill:#f3bdec}.s,.r,.x,.y,.z{stroke:#000}.m{fill:none;stroke:#c00;stroke-width:2}
</style></head><body>\n",
    )
}

// The shapes: the bits that the next strip has again, with a tick at every eighth bit; and the
// boxes of a telegram, S first or S* first, with the mark at its place.
fn put_shapes(rt: &impl System) -> bool {
    write(
        rt,
        b"<svg class='h'><defs><g id='e'><rect class='e' x='384' y='0' width='32' height='66'/><path class='w' d='M0 11v3m32-3v3m32-3v3m32-3v3m32-3v3m32-3v3m32-3v3m32-3v3m32-3v3m32-3v3m32-3v3m32-3v3m32-3v3m32-3v3'/></g>
<g id='t'><rect class='x' x='32' y='36' width='32' height='14'/><rect class='y' x='64' y='36' width='32' height='14'/><rect class='z' x='96' y='36' width='32' height='14'/><text x='44' y='47'>X</text><text x='76' y='47'>Y</text><text x='108' y='47'>Z</text></g>
<g id='s'><rect class='s' x='0' y='36' width='32' height='14'/><text x='12' y='47'>S</text></g>
<g id='r'><rect class='r' x='0' y='36' width='32' height='14'/><text x='11' y='47'>S*</text></g>
<g id='t1'><use href='#s'/><use href='#t'/><use href='#r' x='128'/><path class='m' d='M0 32V54'/></g>
<g id='t2'><use href='#r'/><use href='#t'/><use href='#s' x='128'/><path class='m' d='M0 32V54'/></g></defs></svg>
<h1>A line</h1>\n",
    )
}

// The legend, drawn.
fn put_legend(rt: &impl System) -> bool {
    write(
        rt,
        b"<p><span class='i'><svg viewBox='0 12 24 20'><path class='w' d='M0 28V16h12V28h12'/></svg>a bit: high is 1, low is 0</span>
<span class='i'><svg viewBox='-4 28 168 38'><use href='#t1'/><text x='0' y='62'>56</text></svg>a telegram between S and S*: its place, and the number of its first bit</span>
<span class='i'><svg viewBox='352 0 64 66'><use href='#e'/></svg>a tick every eight bits; on grey the first eight of the next strip</span></p>\n",
    )
}

// All before the strips.
pub fn put_head(rt: &impl System) -> bool {
    if !put_style(rt) {
        return false;
    }
    if !put_shapes(rt) {
        return false;
    }
    put_legend(rt)
}

// What stands before the listing.
pub fn put_listing(rt: &impl System) -> bool {
    write(rt, b"<pre>")
}

// The end of the page.
pub fn put_foot(rt: &impl System) {
    write(rt, b"</pre></body></html>\n");
}
