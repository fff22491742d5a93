// What a session holds once its listing is released.
use crate::slot::Slot;
use book::Book;

#[derive(Drop)]
pub(crate) struct State {
    pub(crate) book: Book,
    // in order of opening
    pub(crate) runs: Vec<Slot>,
}
