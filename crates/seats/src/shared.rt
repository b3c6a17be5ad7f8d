//! Collections of any kind, as cells keep them, and calls on them.
ghost use Rattle.cell_calls.specs.Calls.{Suits, plain_call};

use cell_calls::CellCall;
use collections::Collection;
use imm_base::{Dup, Edit, Memory};
use interlocked::{Change, ImmCell, Outcome, Share};
use std::alloc::Global;

/// A collection of any kind, as a cell keeps it.
#[derive(Drop)]
pub struct CellValue {
    pub collection: Collection,
}

/// A call on a cell with a collection of any kind.
#[derive(Drop)]
pub struct CellChange {
    pub call: CellCall,
}

/// A cell that several workers share.
pub type SharedCell = ImmCell<CellValue, CellChange>;

impl Share for CellValue {
    ghost plain = { λ v. v.collection };

    fn share(&self) -> Result<Self, Memory> {
        let collection = self.collection.share()?;
        Ok(CellValue { collection })
    }
}

impl Dup for CellChange {
    fn dup(&self, alloc: Global) -> Result<Self, Memory> {
        let call = self.call.dup(alloc)?;
        Ok(CellChange { call })
    }
}

impl Change<CellValue> for CellChange {
    ghost meaning = { λ c. plain_call c.call };

    ghost suits = { λ c. Suits c.call };

    fn apply(&self, alloc: Global, old: &CellValue) -> Result<Outcome<CellValue>, Memory> {
        let cell_calls::Outcome { edit, reply } = self.call.apply(alloc, &old.collection)?;
        let edit = match edit {
            Edit::Same => Edit::Same,
            Edit::New(collection) => Edit::New(CellValue { collection }),
        };
        Ok(Outcome { edit, reply })
    }
}
