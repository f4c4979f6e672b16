//! What programs of rows share: a script is played on the subjects of its rows.
//!
//! A row is a line `row NAME SUBJECT ARGUMENTS..` and the actions below it. Every line is printed as it stands, an
//! action with ` => ` and its answer. It stands on `resp_core`, `splitter`, `ketama` and `ejector`. Begin with
//! `script.rt`, then `subject.rt`.
#![tactic(auto)]

mod again;
pub mod numbers;
pub mod rings;
pub mod script;
pub mod series;
pub mod settings;
pub mod shown;
pub mod subject;
pub mod text;
pub mod values;
