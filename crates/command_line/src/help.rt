//! What `--help` and `--version` print of the program as a whole.

/// The product's version; then, in parentheses, the beginning of the sum of its sources, and the sum of the logic
/// that proves it, with which `rt version` ends. package/prove puts the sum in the place of the zeros.
pub const VERSION: &str = "2.0.0 (sources 000000000000, rattle logic dac8208d650f15bf)";

/// What the program is for.
pub const HUB: &str = "Checks, prints and scans GS1 barcodes";

/// How a label is printed and read back, and what the exit statuses mean.
pub const HUB_EXAMPLE: &str = "\
Each command reads standard input to its end and writes standard output; `live` answers line by line.
`gs1_hub COMMAND --help` prints its options, its input and an example.

Print a label and read it back:
  $ echo ean13,9501101530003 > label.csv
  $ gs1_hub print --module 2 --width 240 --height 120 --columns 1 --rows 1 --year 2026 < label.csv > label.pbm
  $ gs1_hub scan --module 2 --width 240 --height 120 --columns 1 --rows 1 --workers 1 --year 2026 < label.pbm
  0 0 ]E0 (01)09501101530003
The last line is the answer: the column, the cell in it, the symbology identifier and the elements.

Exit status: 0 if it is done; 1 if the input or the output is refused, with one line on standard error;
2 if the arguments are wrong. A refusal is `refused`, a number and a name, and docs/FAULTS.md says what
to do.";
