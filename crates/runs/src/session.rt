//! A printer at work.

use plan::record::Record;

/// A printer, and the buffer and the plan list that it writes into.
///
/// The log of its calls is no field: to note a part of the buffer in it would lend two fields behind one reference, one of
/// them as `&mut`, for which there is no rule of proof.
#[derive(Drop)]
pub(crate) struct Session<'a, P> {
    pub(crate) printer: &'a mut P,
    pub(crate) buffer: &'a mut [u8],
    pub(crate) plan: &'a mut [Record],
}
