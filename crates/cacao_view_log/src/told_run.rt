// A run whose records were told.
use cacao_site::Bytes;
use flow_core::Flow;

/// What is told of each record of a run, and how it stands behind them.
#[derive(Drop)]
pub(crate) struct ToldRun {
    pub texts: Vec<Bytes>,
    pub flow: Flow,
}
