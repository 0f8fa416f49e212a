use field_text::Moment;
use imgeo_types::Holder;

/// The moment of a holder's last accepted message.
#[derive(Clone, Copy, Debug, PartialEq, Eq)]
pub struct LastMessage {
    pub holder: Holder,
    pub moment: Moment,
}
