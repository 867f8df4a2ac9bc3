// No code: the definition of the desk stands in specs/, with what is promised of it; the layers are held to it.
#![tactic(auto)]
