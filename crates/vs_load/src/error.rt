// Why a load was not carried out.
use std::alloc::{AllocError, AllocFailed};
use thiserror::Error;
use vs_edit::StoreErr;
use vs_pages::PageErr;
use vs_tree::store_err;

#[derive(Debug, Drop, Error, PartialEq, Eq)]
pub enum LoadErr {
    #[error("the text would be too large")]
    TooLarge,
    #[error("out of memory")]
    NoMemory,
    #[error("the pages failed")]
    Failed,
}

impl From<AllocError> for LoadErr {
    fn from(_: AllocError) -> Self {
        LoadErr::NoMemory
    }
}

impl<T: Drop> From<AllocFailed<T>> for LoadErr {
    fn from(_: AllocFailed<T>) -> Self {
        LoadErr::NoMemory
    }
}

impl From<PageErr> for LoadErr {
    fn from(error: PageErr) -> Self {
        LoadErr::from(store_err(error))
    }
}

impl From<StoreErr> for LoadErr {
    fn from(error: StoreErr) -> Self {
        match error {
            StoreErr::NoMemory => LoadErr::NoMemory,
            StoreErr::Failed => LoadErr::Failed,
        }
    }
}
