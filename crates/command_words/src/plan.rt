//! What a command line asks for.

/// A way in which a netlist is written.
#[derive(Clone, Copy, Debug, PartialEq, Eq)]
pub enum Format {
    /// Bristol Fashion, the form that every service takes
    Fashion,
    /// the older Bristol dialect
    Older,
    /// ASCII AIGER
    Aiger,
    /// equations in Verilog
    Equations,
    /// BLIF, as synthesis tools write it
    Blif,
    /// a structural module in Verilog, which is only written
    Verilog,
    /// bit-sliced C, which is only written
    C,
}

/// What a file is read for.
#[derive(Clone, Copy, Debug, PartialEq, Eq)]
pub enum Role {
    /// the netlist, of Join the first one
    Netlist,
    /// the second netlist of Join
    Second,
    /// codes that `--codes @FILE` names, of the input bits
    Codes,
    /// codes that `--out-codes @FILE` names, of the first netlist's output bits
    OutCodes,
    /// codes that `--second-codes @FILE` names, of the second netlist's input bits
    SecondCodes,
    /// codes that `--wanted @FILE` names, of the output bits
    Wanted,
    /// the codes that lie beside the netlist, where no others are given
    Beside,
    /// the codes that lie beside the second netlist
    SecondBeside,
    /// the pairs of wires
    Pairs,
    /// the vectors
    Vectors,
    /// the models of the cells that a BLIF netlist uses
    Cells,
}

/// A file that is to be read before the plan is carried out.
#[derive(Debug, Drop)]
pub struct Source {
    /// what it is read for
    pub role: Role,
    /// its name; `-` is standard input
    pub name: String,
    /// whether it may be missing
    pub is_optional: bool,
}

/// A list that was given as a word, or as the name of a file behind `@`.
#[derive(Debug, Drop)]
pub enum List {
    /// the list itself
    Words(String),
    /// the file with this role has it
    File,
}

/// Which check is asked for.
#[derive(Clone, Copy, Debug, PartialEq, Eq)]
pub enum Method {
    /// exact for at most twelve input bits, else certify, else the check of many inputs
    Chosen,
    /// all settings of at most twelve input bits
    Exact,
    /// the check of many inputs, wire by wire over the inputs that reach it
    Wide,
    /// the certifier
    Certify,
}

/// Mask: the masked netlist and its codes.
#[derive(Debug, Drop)]
pub struct MaskTask {
    /// the input codes
    pub codes: List,
    /// the wanted output codes; none: whichever fall
    pub wanted: Option<List>,
    /// the budget of choices for the fewest mask changes; none: Mask as it is
    pub fewest: Option<u64>,
    /// the notation of the source
    pub from: Option<Format>,
    /// the file for the masked netlist; none: standard output
    pub out: Option<String>,
    /// the file for the codes; none: beside `out`, if that is a file
    pub codes_out: Option<String>,
}

/// Check: clean, a leak, a bad pair, or not decided.
#[derive(Debug, Drop)]
pub struct CheckTask {
    /// the input codes; none: those beside the netlist
    pub codes: Option<List>,
    /// whether pairs of wires are checked besides
    pub has_pairs: bool,
    /// which check is asked for
    pub method: Method,
    /// the most settings that the check of many inputs may try
    pub budget: u64,
    /// the notation of the netlist
    pub from: Option<Format>,
}

/// Run: the output bits.
#[derive(Debug, Drop)]
pub struct RunTask {
    /// the input values; none: vectors from a file
    pub values: Option<String>,
    /// the notation of the netlist
    pub from: Option<Format>,
}

/// Convert: the netlist in another notation.
#[derive(Debug, Drop)]
pub struct ConvertTask {
    /// the notation of the netlist
    pub from: Option<Format>,
    /// the notation that is written
    pub to: Format,
    /// the file for the netlist; none: standard output
    pub out: Option<String>,
    /// the input of a BLIF netlist that is the mask pair; none: the last one is, if any
    pub masks: Option<String>,
    /// the name of the written module or function; none: the netlist's own
    pub module: Option<String>,
    /// whether every wire of a written module is kept, and every statement of C has a barrier
    pub is_kept: bool,
}

/// Same: whether two netlists compute the same.
#[derive(Debug, Drop)]
pub struct SameTask {
    /// the notation of both netlists
    pub from: Option<Format>,
    /// how many random settings are tried where the inputs have more than twenty bits
    pub settings: u64,
    /// what picks them
    pub seed: u64,
}

/// Join: one netlist of two masked blocks.
#[derive(Debug, Drop)]
pub struct JoinTask {
    /// the first netlist's input codes; none: those beside it
    pub codes: Option<List>,
    /// the first netlist's output codes; none: those beside it
    pub out_codes: Option<List>,
    /// the second netlist's input codes; none: those beside it
    pub second_codes: Option<List>,
    /// the file for the joined netlist; none: standard output
    pub out: Option<String>,
    /// the file for the codes; none: beside `out`, if that is a file
    pub codes_out: Option<String>,
}

/// Info: what a netlist is made of.
#[derive(Debug, Drop)]
pub struct InfoTask {
    /// the notation of the netlist
    pub from: Option<Format>,
}

/// Twins: where each source wire stands in the masked netlist.
#[derive(Debug, Drop)]
pub struct TwinsTask {
    /// the input codes
    pub codes: List,
    /// the notation of the source
    pub from: Option<Format>,
}

/// Session: steps from standard input.
#[derive(Debug, Drop)]
pub struct SessionTask {
    /// the widths of the input values, parted by commas
    pub inputs: String,
    /// the input codes
    pub codes: List,
}

/// What is to be done.
#[derive(Debug, Drop)]
pub enum Task {
    /// `fidrovelj mask`
    Mask(MaskTask),
    /// `fidrovelj check`
    Check(CheckTask),
    /// `fidrovelj run`
    Run(RunTask),
    /// `fidrovelj convert`
    Convert(ConvertTask),
    /// `fidrovelj join`
    Join(JoinTask),
    /// `fidrovelj info`
    Info(InfoTask),
    /// `fidrovelj twins`
    Twins(TwinsTask),
    /// `fidrovelj same`
    Same(SameTask),
    /// `fidrovelj session`
    Session(SessionTask),
}

/// A whole command line.
#[derive(Debug, Drop)]
pub struct Plan {
    /// what is to be done
    pub task: Task,
    /// the files that are wanted, in the order in which they are read
    pub sources: Vec<Source>,
    /// whether the result is told as JSON
    pub is_json: bool,
    /// whether only the result is told, and no remark
    pub is_quiet: bool,
}
