pub(crate) mod connection;
pub(crate) mod connections;
pub(crate) mod pipelines;
pub(crate) mod place;
