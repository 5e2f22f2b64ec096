// What stands in every page: the head, the shapes of the signs, the legend, and what stands around
// the listing. The words hold no quotes but single ones.

use console::System;

// Words to standard output.
fn write(rt: &impl System, words: &[u8]) -> bool {
    console::put(rt, b"draw", words, words.len())
}

// The title and the style: a strip scrolls by itself on a small screen, and no page cuts it.
fn put_style(rt: &impl System) -> bool {
    write(
        rt,
        b"<!DOCTYPE html>\n<html lang='en'><head><meta charset='utf-8'/><meta name='viewport' content='width=device-width, initial-scale=1'/><title>A ride</title><style>
body{font:16px/1.5 sans-serif;color:#000;background:#fff;max-width:1170px;margin:0 auto;padding:0 8px}
h1{font-size:22px;margin:8px 0}h2{font-size:16px;margin:16px 0 0;break-after:avoid}p{margin:8px 0}pre{white-space:pre-wrap}
.s{overflow-x:auto;break-inside:avoid}.s svg{display:block;width:100%;min-width:960px}.s text{font-size:15px;text-anchor:middle}.s g text{text-anchor:start}.y text{font-size:14px}
.i{display:inline-block;margin-right:14px;white-space:nowrap}.j{height:34px;vertical-align:middle;margin-right:2px}.r{height:18px}
.k{stroke:#bbb;fill:none}.y{fill:#555}.a{stroke:#000;stroke-width:2}.q{fill:#f3f3f3}
.p{fill:#fff;stroke:#000;stroke-width:2}.b{fill:#000}.n{fill:none;stroke:#000;stroke-width:2}
.f{stroke:#c00;stroke-width:3;fill:none}.x{fill:#c00;font-weight:bold}.v{stroke:#c00;stroke-width:2;fill:none}.h{fill:none;pointer-events:all}.o{fill:none;stroke:#b50;stroke-width:3;stroke-dasharray:5 3}
.d{fill:#2a5;fill-opacity:.2;stroke:#2a5}.c{stroke:#163;stroke-width:2;stroke-dasharray:2 3;fill:none}
.m path{stroke:#03a;stroke-width:3}.t path{stroke:#a50;stroke-width:2;stroke-dasharray:8 5}.m text{fill:#03a}.t text{fill:#a50}.m text,.t text{paint-order:stroke;stroke:#fff;stroke-width:3px}.u text{transform:translate(12px,17px)}
.w{display:none}@media print{body{max-width:none}.s svg{min-width:0}.s text{font-size:19px}.w{display:block;margin-top:48px;break-inside:avoid}}
</style></head><body>\n",
    )
}

// The grid of a strip: a tick each 100 m, the scale of the speeds, the line, and the margin.
fn put_grid(rt: &impl System) -> bool {
    write(
        rt,
        b"<svg width='0' height='0' style='position:absolute'><defs><g id='g'><rect class='q' x='0' y='20' width='100' height='198'/>
<path class='k' d='M100 20V218M200 20V218M300 20V218M400 20V218M500 20V218M600 20V218M700 20V218M800 20V218M900 20V218M1000 20V218M1100 20V218M100 28H1100M100 58H1100M100 88H1100M100 118H1100'/>
<path class='a' d='M0 156H1110'/><g class='y'><text x='1103' y='33'>270</text><text x='1103' y='63'>180</text><text x='1103' y='93'>90</text><text x='1103' y='123'>0</text></g></g>\n",
    )
}

// The signs of groups above the line: a signal unmarked, first, early, good and late, a warning
// board, an annulled one, a line board, a route board.
fn put_present(rt: &impl System) -> bool {
    write(
        rt,
        b"<g id='s1'><path class='n' d='M0 156V145'/><circle class='p' cy='138' r='7'/></g>
<g id='s2'><path class='n' d='M0 156V145'/><path class='p' d='M-8 145v-8l8 -8l8 8v8z'/><circle class='b' cy='139' r='2.5'/></g>
<g id='s3'><path class='n' d='M0 156V145'/><path class='p' d='M-9 138l15 -8v16z'/><path class='b' d='M-9 138l8 -4.3v8.6z'/></g>
<g id='s4'><path class='n' d='M0 156V145'/><circle class='b' cy='138' r='8'/></g>
<g id='s5'><path class='n' d='M0 156V145'/><path class='p' d='M9 138l-15 -8v16z'/><path class='b' d='M9 138l-8 -4.3v8.6z'/></g>
<g id='s6'><path class='n' d='M0 156V145'/><path class='p' d='M0 129l9 16h-18z'/></g>
<g id='s7'><use href='#s1'/><path class='n' d='M-5 133l10 10M5 133l-10 10'/></g>
<g id='s8'><path class='n' d='M0 156V145'/><path class='p' d='M-7 131h14v14h-14z'/></g>
<g id='s9'><path class='n' d='M0 156V145'/><path class='p' d='M0 128l10 10l-10 10l-10 -10z'/></g>\n",
    )
}

// Those below it, and the signs of a fault, a missed signal and a refused record.
fn put_opposite(rt: &impl System) -> bool {
    write(
        rt,
        b"<g id='s11'><path class='n' d='M0 156V167'/><circle class='p' cy='174' r='7'/></g>
<g id='s16'><path class='n' d='M0 156V167'/><path class='p' d='M0 183l9 -16h-18z'/></g>
<g id='s17'><use href='#s11'/><path class='n' d='M-5 169l10 10M5 169l-10 10'/></g>
<g id='s18'><path class='n' d='M0 156V167'/><path class='p' d='M-7 167h14v14h-14z'/></g>
<g id='s20'><path class='f' d='M-7 149l14 14M7 149l-14 14'/></g>
<g id='s21'><circle class='o' cy='156' r='10'/></g>
<g id='s22'><rect class='h' x='-5' y='211' width='10' height='5'/><path class='v' d='M0 211v4M-5 215h10'/></g></defs></svg>
<h1>A ride</h1>\n",
    )
}

// The legend: each sign, and what it stands for.
fn put_legend(rt: &impl System) -> bool {
    write(
        rt,
        b"<p><span class='i'><svg class='j' viewBox='-12 124 24 36'><use href='#s2'/></svg>signal, first</span> <span class='i'><svg class='j' viewBox='-12 124 24 36'><use href='#s3'/></svg>early</span> <span class='i'><svg class='j' viewBox='-12 124 24 36'><use href='#s4'/></svg>good</span> <span class='i'><svg class='j' viewBox='-12 124 24 36'><use href='#s5'/></svg>late</span>
<span class='i'><svg class='j' viewBox='-12 124 24 36'><use href='#s6'/></svg>warning</span> <span class='i'><svg class='j' viewBox='-12 124 24 36'><use href='#s7'/></svg>annulled</span> <span class='i'><svg class='j' viewBox='-12 124 24 36'><use href='#s8'/></svg>line</span> <span class='i'><svg class='j' viewBox='-12 124 24 36'><use href='#s9'/></svg>route</span>
<span class='i'><svg class='j' viewBox='-12 152 24 36'><use href='#s11'/></svg>opposite signal</span> <span class='i'><svg class='j' viewBox='-12 152 24 36'><use href='#s16'/></svg>opposite warning</span> <span class='i'><svg class='j' viewBox='-12 152 24 36'><use href='#s17'/></svg>opposite annulled</span> <span class='i'><svg class='j' viewBox='-12 152 24 36'><use href='#s18'/></svg>opposite line</span>
<span class='i'><svg class='j' viewBox='-12 138 24 36'><use href='#s20'/></svg>fault</span> <span class='i'><svg class='j' viewBox='-12 138 24 36'><use href='#s21'/></svg>missed</span> <span class='i'><svg class='j' viewBox='-12 195 24 36'><use href='#s22'/></svg>record refused</span>
<span class='i'><svg class='j' viewBox='0 0 48 36'><rect class='d' x='2' y='4' width='44' height='28'/><path class='c' d='M24 4v28'/></svg> next signal due</span> <span class='i'><svg class='j' viewBox='0 0 48 36'><g class='m'><path d='M2 18h44'/></g></svg> main speed, km/h</span> <span class='i'><svg class='j' viewBox='0 0 48 36'><g class='t'><path d='M2 18h44'/></g></svg> target</span></p>
",
    )
}

// The signs of the row over the strips, and what they stand for.
fn put_row(rt: &impl System) -> bool {
    write(
        rt,
        b"<svg width='0' height='0' style='position:absolute'><defs><g id='s30'><path class='b' d='M0 17l-7 -12h14z'/></g>
<g id='s31'><path class='p' d='M0 16l-6 -10h12z'/></g>
<g id='s32'><path class='f' d='M0 19v10M-5 24h10'/></g></defs></svg>
<p><span class='i'><svg class='j' viewBox='-12 -7 24 36'><use href='#s30'/></svg>entry of the plan, met</span> <span class='i'><svg class='j' viewBox='-12 -7 24 36'><use href='#s31'/></svg>absent</span> <span class='i'><svg class='j' viewBox='-12 6 24 36'><use href='#s32'/></svg>extra group</span></p>\n",
    )
}

// All before the strips, up to the row of records that are refused before any is accepted.
pub fn put_head(rt: &impl System, is_planned: bool) -> bool {
    if !put_style(rt) {
        return false;
    }
    if !put_grid(rt) {
        return false;
    }
    if !put_present(rt) {
        return false;
    }
    if !put_opposite(rt) {
        return false;
    }
    if !put_legend(rt) {
        return false;
    }
    if is_planned {
        if !put_row(rt) {
            return false;
        }
    }
    write(rt, b"<p>")
}

// The end of that row, where there is no strip.
pub fn put_no_strip(rt: &impl System) -> bool {
    write(rt, b"</p>\n<pre>")
}

// What stands before lines, those of the verdict or of the listing, and after the verdict's.
pub fn put_lines(rt: &impl System) -> bool {
    write(rt, b"<pre>")
}

pub fn put_lines_end(rt: &impl System) -> bool {
    write(rt, b"</pre>\n")
}

// The end of the page: in print there is a line to sign.
pub fn put_foot(rt: &impl System) {
    write(
        rt,
        b"</pre><p class='w'>Date: ______________________ Signed: ______________________________</p></body></html>\n",
    );
}
