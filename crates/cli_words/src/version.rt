//! What `--version` prints.

/// The program's version.
pub const VERSION: &str = "1.1";

/// What `--version` prints behind the program's name: its version, and the logic that it is proved with.
pub const VERSION_LINES: &str = "1.1\nproved with Rattle, logic dac8208d650f15bf";
