//! How the page looks.

/// What the page begins with. It may load nothing and run nothing.
pub const HEAD: &str = "<!DOCTYPE html>
<html lang=\"en\">
<head>
<meta charset=\"utf-8\">
<meta name=\"viewport\" content=\"width=device-width, initial-scale=1\">
<meta name=\"color-scheme\" content=\"light dark\">
<meta http-equiv=\"Content-Security-Policy\" content=\"default-src 'none'; style-src 'unsafe-inline'\">
";

/// The style, light or dark as the reader's system is, in one column where there is no room for two.
pub const STYLE: &str =
    ":root{color-scheme:light dark;--back:#fff;--fore:#1f2328;--dim:#59636e;--edge:#d1d9e0;--box:#f6f8fa;--left:#a40e26;--left-back:#ffebe9;--right:#116329;--right-back:#dafbe1;--changed:#7d4e00;--moved:#0550ae}
@media (prefers-color-scheme:dark){:root{--back:#0d1117;--fore:#e6edf3;--dim:#9198a1;--edge:#3d444d;--box:#151b23;--left:#ff9492;--left-back:#3c1618;--right:#6fdd8b;--right-back:#12361f;--changed:#e3b341;--moved:#79c0ff}}
*{box-sizing:border-box}
body{margin:0 auto;max-width:90rem;padding:1rem;background:var(--back);color:var(--fore);font:1rem/1.5 system-ui,sans-serif}
h1{font-size:1.5rem;margin:0}
h2{font-size:1rem;margin:0 0 .5rem;overflow-wrap:anywhere}
main h2.file{font-size:1.125rem;margin:2rem 0 .5rem;padding:.5rem 0 0;border-top:.125rem solid var(--edge)}
nav h2.file{margin:1rem 0 0}
h3{font-size:.875rem;margin:0 0 .25rem;color:var(--dim);font-weight:600}
p{margin:.25rem 0}
a{color:inherit;text-underline-offset:.2em}
nav a,h2 a{text-decoration:none}
nav a code,h2 a code{text-decoration:underline}
code,pre{font:.875rem/1.5 ui-monospace,SFMono-Regular,Menlo,Consolas,monospace;overflow-wrap:anywhere;white-space:pre-wrap;unicode-bidi:isolate}
pre{margin:0;padding:.5rem;background:var(--box);border:1px solid var(--edge);border-radius:.375rem}
nav ol{margin:.25rem 0 1rem;padding-left:2.5rem}
nav li{padding:.125rem 0}
section{border:1px solid var(--edge);border-radius:.375rem;padding:.75rem;margin:0 0 1rem;scroll-margin-top:1rem}
section:target,li:target{outline:.1875rem solid var(--moved)}
.left .mark,.changes .left,h3+.left{color:var(--left)}
.right .mark,.changes .right{color:var(--right)}
.changed .mark{color:var(--changed)}
.moved .mark{color:var(--moved)}
.mark{display:inline-block;min-width:1ch;font-family:ui-monospace,monospace;font-weight:700}
.both{display:grid;grid-template-columns:repeat(auto-fit,minmax(min(100%,24rem),1fr));gap:.75rem}
.both>div{min-width:0}
div.left pre{background:var(--left-back)}
div.right pre{background:var(--right-back)}
.changes span{display:block}
.changes .left{background:var(--left-back)}
.changes .right{background:var(--right-back)}
.none{color:var(--dim);font-style:italic}
.lines{margin:0;padding:0 0 0 3.5rem;border:1px solid var(--edge);border-radius:.375rem}
.lines li{padding:0 .5rem;scroll-margin-top:4rem}
.lines li::marker{color:var(--dim);font-size:.8125rem}
.lines a{text-decoration:none;display:block}
.lines .marked{background:color-mix(in srgb,var(--changed) 18%,transparent)}
";
