//! The laws over every history of a turnstile whose cells are the machine's.

ghost use Rattle.eleos_plot.specs.Laws.{CellsFit, CellsShow, KeptIsMade, PlotAgrees, PlotAllows};

/// A turnstile's legal history over the machine's cells is a legal history of the machine, which
/// made the kept parts and the links.
pub fn plot_agrees()
    ensures agrees { PlotAgrees }
{}

/// An entry that is legal on the machine after such a history may follow in the turnstile.
pub fn plot_allows()
    ensures allows { PlotAllows }
{}

/// What an entry makes of the parts of the cells that it touches meets its step, wherever the
/// entry may be made on them.
pub fn kept_is_made()
    ensures kept { KeptIsMade }
{}

/// A value that has the part which a legal history made of a cell is of that cell's kind, and fit
/// for what the machine does with it.
pub fn cells_fit()
    ensures fit { CellsFit }
{}

/// A page and a frame that are fit for the machine have their parts as cells.
pub fn fit_cells_show()
    ensures show { CellsShow }
{}
