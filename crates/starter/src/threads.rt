// A launcher may go to another thread where its spawner may: the `impl` is proved with the bound of
// its trait.
use crate::launcher::Launcher;
use pool_outer::Spawner;

trait MayBeSent: Send {}

impl<P: Spawner + Send> MayBeSent for Launcher<P> {}
