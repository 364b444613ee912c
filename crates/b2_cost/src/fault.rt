//! Why a measurement comes to no end.
use b2_base::fault::OutOfMemory;
use b2_base::path::PathFault;
use std::alloc::AllocError;
use std::io;
use std::num::ParseIntError;
use thiserror::Error;

/// Why a measurement comes to no end.
#[derive(Debug, Drop, Error)]
pub enum CostFault {
    #[error("the words are four numbers, and then chain or nothing")]
    Words,
    #[error("a word is no number of 32 bits")]
    Number(#[from] ParseIntError),
    #[error("a path is none")]
    Path(#[from] PathFault),
    #[error("the steps make no plan")]
    Plan,
    #[error("an update did not end well")]
    Update,
    #[error("the words or the output failed")]
    System(#[from] io::Error),
    #[error("out of memory")]
    OutOfMemory(#[from] OutOfMemory),
    #[error("out of memory")]
    Allocation(#[from(alloc)] AllocError),
}
