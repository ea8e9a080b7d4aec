//! The style of the page, in light and in dark (CSS).

pub const STYLE: &str = r#"
:root{color-scheme:light dark;--ink:#222;--back:#fff;--soft:#777;--line:#ddd;--mark:#fff3c4;--chain:#d00000}
@media (prefers-color-scheme:dark){:root{--ink:#ddd;--back:#181818;--soft:#999;--line:#3a3a3a;--mark:#4a4320;--chain:#ff6b5e}}
*{box-sizing:border-box}
body{margin:12px;background:var(--back);color:var(--ink);font:14px/1.4 system-ui,sans-serif}
h1{font-size:17px;margin:0 0 6px}
h2{font-size:13px;margin:10px 0 4px;color:var(--soft);font-weight:600;text-transform:uppercase;letter-spacing:.04em}
#bar{position:sticky;top:0;background:var(--back);padding:4px 0 8px;border-bottom:1px solid var(--line);z-index:1}
#bar input{width:min(50%,600px);vertical-align:middle}
button{font:inherit;padding:2px 10px}
#time{overflow-x:auto}
#columns{display:grid;grid-template-columns:minmax(380px,1.2fr) minmax(300px,1fr);gap:18px}
pre{margin:0;font:12.5px/1.45 ui-monospace,monospace}
pre,.scroll{max-height:70vh;overflow:auto;position:relative}
.row{display:block;white-space:pre;padding:0 4px}
.row .n{display:inline-block;width:3em;text-align:right;margin-right:8px;color:var(--soft)}
.row.note{color:var(--soft)}
.row.here{background:var(--mark)}
.tag{border-radius:7px;padding:0 6px;margin-left:6px;color:#fff;font:11px system-ui,sans-serif}
ul{list-style:none;margin:0;padding-left:16px}
li{margin:2px 0}
.gone{color:var(--soft)}
table{border-collapse:collapse;font:12.5px/1.4 ui-monospace,monospace}
td{padding:0 12px 0 0;vertical-align:top}
td.new{background:var(--mark)}
svg text{font:11px system-ui,sans-serif;fill:var(--ink)}
#note{color:var(--soft)}
@media (max-width:820px){#columns{grid-template-columns:1fr}}
"#;
