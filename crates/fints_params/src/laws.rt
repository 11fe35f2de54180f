//! Laws of captures: each function's contract is one.
ghost use Rattle.fints_params.specs.Laws.{OneParams, OneParamFault, NoParamsAtFault, OneCodes, OneCodeFault, NoCodesAtFault, ParamsOrFault, CodesOrFault, AnyCutting, PieceFaultIsParamFault};

/// A capture has one set of rows at most and one first refusal at most, and never both.
pub fn one_params()
    ensures rows { OneParams }
    ensures refusal { OneParamFault }
    ensures not_both { NoParamsAtFault }
{}

/// A message has one list of feedback codes at most and one first refusal at most, and never both.
pub fn one_codes()
    ensures codes { OneCodes }
    ensures refusal { OneCodeFault }
    ensures not_both { NoCodesAtFault }
{}

/// Each list of bytes has an answer: as a capture it has rows or a first refusal, and as a message
/// it has a list of feedback codes or a first refusal.
pub fn params_or_fault()
    ensures rows { ParamsOrFault }
    ensures codes { CodesOrFault }
{}

/// However a capture is cut into pieces, a reader that took them all holds the capture, so that it
/// ends as `Params::read` does. The fault that refuses a piece is that of the capture, whatever
/// bytes follow.
pub fn any_cutting()
    ensures whole { AnyCutting }
    ensures fault { PieceFaultIsParamFault }
{}
