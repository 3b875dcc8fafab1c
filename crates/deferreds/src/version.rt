/// Which program this is, line by line: its version, the checksum of the sources that it is built
/// from, and the kit that proved it.
pub const VERSION: &str =
    "deferreds 0.1.0\nsources 3536634130 72080\nkit rattle-kit-13f logic dac8208d650f15bf\n";
