// How a call ends that writes into a lent buffer.
use crate::refusal::Refusal;

// The length of the result, which fills that many first bytes of the buffer; none, which is an absence; or a refusal. The last two
// change no byte.
pub type Ending = Result<Option<usize>, Refusal>;
