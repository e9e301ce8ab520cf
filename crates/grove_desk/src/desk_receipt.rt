ghost use Rattle.grove_desk.specs.Histories.{IsDeskReceipt};

use crate::{Opening, Receipt};
use grove_store::Keeper;
use std::marker::{Model, PhantomData};

/// A receipt that waits to be taken. By its type it's one of a desk that was opened so, and that has such a keeper.
#[derive(Drop)]
pub(crate) struct DeskReceipt<B: Opening, K: Keeper> {
    receipt: Receipt,
    of: PhantomData<B>,
    by: PhantomData<K>,
}

impl<B: Opening, K: Keeper> Model for DeskReceipt<B, K> {
    ghost use Rattle.grove_desk.specs.Receipts.{ReceiptState};
    ghost use Rattle.grove_desk.specs.Histories.{IsDeskReceipt};

    ghost Value = { ReceiptState };

    ghost view = { λ answer. answer.receipt };

    ghost invariant = { λ answer. IsDeskReceipt K.stands_for B.store B.kept answer.receipt };
}

impl<B: Opening, K: Keeper> DeskReceipt<B, K> {
    pub(crate) fn new(receipt: Receipt) -> Self
        requires { IsDeskReceipt K.stands_for B.store B.kept receipt }
    {
        DeskReceipt {
            receipt,
            of: PhantomData,
            by: PhantomData,
        }
    }

    pub(crate) fn into_receipt(self) -> Receipt
        ensures { IsDeskReceipt K.stands_for B.store B.kept result }
    {
        let DeskReceipt {
            receipt,
            of: _,
            by: _,
        } = self;
        receipt
    }
}
