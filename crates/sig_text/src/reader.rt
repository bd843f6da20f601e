//! From the bytes of a text to the model that it stands for, or to the first breach.
//!
//! Whether the bytes are a document, and with which table, is toml's answer; the readers of tables
//! do the rest.

ghost use Rattle.std.specs.Prelude.{◌≡◌, [], IfOk, IfErr};
ghost use Rattle.sig_types.specs.Refused.{TellsFirst};
ghost use Rattle.sig_text.specs.Texts.{text_breaches, text_model};

use crate::tables::document_in;
use crate::values::refuse;
use sig_types::{Code, Model, ModelFault, Place};
use std::alloc::Global;

/// The model that a text stands for, or the first breach of the text.
///
/// Whether the names in the model are known, and the rest of what a model has to be beyond the form
/// of its text, `Model::check` looks at.
pub fn read_model(alloc: Global, bytes: &[u8]) -> Result<Model, ModelFault>
    ensures model { IfOk result (λ model. (text_breaches bytes.now ≡ []) × (model ≡ text_model bytes.now)) }
    ensures refused { IfErr result (TellsFirst (text_breaches bytes.now)) }
{
    match toml::table_from_slice(alloc, bytes) {
        Ok(table) => document_in(alloc, table),
        Err(error) => {
            if error.is_memory() {
                Err(ModelFault::OutOfMemory)
            } else {
                refuse(Code::M01, Place::Document)
            }
        }
    }
}
