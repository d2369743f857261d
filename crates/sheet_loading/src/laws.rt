//! Laws of loading, each proved for all sheets.

ghost use Rattle.sheet_loading.specs.Laws.{FirstRefuses, OthersFollow};

/// Sheets that are loaded one after the other are loaded as all at once: the others follow behind those that are
/// loaded, and the first that is refused decides.
pub fn law_one_by_one()
    ensures follow { OthersFollow }
    ensures first { FirstRefuses }
{}
