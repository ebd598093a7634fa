// What the program keeps from one operation to the next.
use crate::beside::Beside;
use crate::counts::Counts;
use crate::model::Model;
use crate::say::Loud;
use layout::Store;
use std::alloc::{AllocError, Global};

// The model and the store, as the sequence has left them; the second run's store; the bytes that were lent; and the goto that stands
// beside a walk. A trace that is not looked at goes into `spare`.
#[derive(Drop)]
pub(crate) struct Bench {
    pub alloc: Global,
    pub loud: Loud,
    pub counts: Counts,
    pub model: Model,
    pub store: Vec<u8>,
    pub second: Vec<u8>,
    pub lent: Vec<u8>,
    pub beside: Option<Beside>,
    pub spare: Vec<u8>,
}

impl Bench {
    pub(crate) fn new(alloc: Global, loud: Loud) -> Result<Bench, AllocError> {
        Ok(Bench {
            alloc,
            loud,
            counts: Counts::new(),
            model: Model::new(alloc)?,
            store: Vec::new(alloc),
            second: Vec::new(alloc),
            lent: Vec::new(alloc),
            beside: None,
            spare: vec![in alloc; 0u8; Store::EVENT * Store::NODES]?,
        })
    }
}
