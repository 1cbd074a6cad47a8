//! From bytes to a TOML document.
ghost use Rattle.std.specs.Prelude.{◌≡◌, Err, IsUtf8};
ghost use Rattle.toml.specs.View.{table_view};
ghost use Rattle.cn_table.specs.Document.{document_of};
ghost use Rattle.cn_table.specs.Reads.{Reads};

use crate::fault::TableFault;
use std::alloc::Global;
use toml::Table;

/// The document that the bytes spell.
pub(crate) fn read_document(alloc: Global, bytes: &[u8]) -> Result<Table, TableFault>
    ensures document { Reads TableFault.NotToml table_view result (document_of bytes.now) }
    ensures told { ¬ IsUtf8 bytes.now → result ≡ Err TableFault.NotToml }
{
    let Ok(text) = str::from_utf8(bytes) else {
        return Err(TableFault::NotToml);
    };
    match toml::table_from_str(alloc, text) {
        Ok(table) => Ok(table),
        Err(e) if e.is_memory() => Err(TableFault::OutOfMemory),
        Err(_) => Err(TableFault::NotToml),
    }
}
