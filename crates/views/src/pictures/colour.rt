//! The colours of tasks in a picture, hatching and arrowheads. Tasks have sixteen hues, and hatching where they come
//! again.

/// The looks of all, in light and in dark: a class for each hue, a pattern for each of the three kinds of hatching, and the head of an arrow.
pub const LOOKS: &str = "\
<style>
text{font:12px sans-serif;fill:#222;stroke:none}
.back{fill:#fff}.axis{stroke:#e6e6e6}.number{fill:#777}.lane{stroke:#ccc;stroke-dasharray:2 4}
.box{fill-opacity:.28}.label{font-size:11px}.ink{stroke:#222;stroke-width:1.5;fill:none}.dot{fill:#222}
.hatch{stroke:#222;stroke-opacity:.45;fill:none}.miss{stroke:#999;stroke-width:1.5}.chain{stroke:#d00000;stroke-width:3;fill:none}
@media (prefers-color-scheme:dark){text{fill:#ddd}.back{fill:#181818}.axis{stroke:#333}.number{fill:#999}.lane{stroke:#555}
.box{fill-opacity:.38}.ink{stroke:#ddd}.dot{fill:#ddd}.hatch{stroke:#eee}.chain{stroke:#ff6b5e}}

.c0{fill:#4e79a7;stroke:#4e79a7}\
.c1{fill:#f28e2b;stroke:#f28e2b}\
.c2{fill:#59a14f;stroke:#59a14f}\
.c3{fill:#e15759;stroke:#e15759}\
.c4{fill:#76b7b2;stroke:#76b7b2}\
.c5{fill:#d9b62f;stroke:#d9b62f}\
.c6{fill:#b07aa1;stroke:#b07aa1}\
.c7{fill:#9c755f;stroke:#9c755f}\
.c8{fill:#ff8fa3;stroke:#ff8fa3}\
.c9{fill:#1f9e89;stroke:#1f9e89}\
.c10{fill:#7b5ea7;stroke:#7b5ea7}\
.c11{fill:#c44e9c;stroke:#c44e9c}\
.c12{fill:#8cb43c;stroke:#8cb43c}\
.c13{fill:#3d8fd1;stroke:#3d8fd1}\
.c14{fill:#d1703c;stroke:#d1703c}\
.c15{fill:#6b8e9c;stroke:#6b8e9c}
</style>
<defs>
<pattern id=\"h1\" width=\"6\" height=\"6\" patternUnits=\"userSpaceOnUse\"><path d=\"M0,6 L6,0\" class=\"hatch\"/></pattern>
<pattern id=\"h2\" width=\"6\" height=\"6\" patternUnits=\"userSpaceOnUse\"><path d=\"M0,0 L6,6\" class=\"hatch\"/></pattern>
<pattern id=\"h3\" width=\"6\" height=\"6\" patternUnits=\"userSpaceOnUse\"><path d=\"M3,0 L3,6\" class=\"hatch\"/></pattern>
<marker id=\"head\" markerWidth=\"8\" markerHeight=\"8\" refX=\"7\" refY=\"4\" orient=\"auto\"><path d=\"M0,0 L8,4 L0,8 z\" class=\"dot\"/></marker>
</defs>";

/// The number of a task's hue.
pub(crate) fn hue_of(task: usize) -> usize {
    task % 16
}

/// The number of a task's hatching; 0 is none.
pub(crate) fn hatching_of(task: usize) -> usize {
    (task / 16) % 4
}
